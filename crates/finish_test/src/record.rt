// A record: when it holds (1 byte), the length of the plan file (2 bytes), its refusal or 0 (1 byte), the verdict (1
// byte), the accepted run steps (2 bytes), the length of the list in pairs (1 byte); then the plan file and the list,
// a task and the task that it depends on in 1 byte each.
use show_files::records::{Bytes, Record};

// What a record says.
#[derive(Clone, Copy)]
pub struct Check<'a> {
    pub when: u8,
    pub refusal: u8,
    pub finishes: bool,
    pub work: u16,
    pub plan: &'a [u8],
    pub list: &'a [u8],
}

impl<'a> Record<'a> for Check<'a> {
    fn read(file: &mut Bytes<'a>) -> Option<Check<'a>> {
        let when = file.byte()?;
        let size = file.word()?;
        let refusal = file.byte()?;
        let verdict = file.byte()?;
        let work = file.word()?;
        let pairs = file.byte()?;
        Some(Check {
            when,
            refusal,
            finishes: verdict == 1,
            work,
            plan: file.part(size as usize)?,
            list: file.part(2 * pairs as usize)?,
        })
    }
}
