// A record: desks in 1 byte, the lengths of plan and steps in 2 bytes each, and then plan, steps and 27 counts of 2 bytes.
use show_files::records::{Bytes, Record};

// What a record says.
#[derive(Clone, Copy)]
pub struct Counted<'a> {
    pub processors: u8,
    pub plan: &'a [u8],
    pub steps: &'a [u8],
    pub counts: &'a [u8],
}

impl<'a> Record<'a> for Counted<'a> {
    fn read(file: &mut Bytes<'a>) -> Option<Counted<'a>> {
        let processors = file.byte()?;
        let size = file.word()?;
        let stepped = file.word()?;
        Some(Counted {
            processors,
            plan: file.part(size as usize)?,
            steps: file.part(stepped as usize)?,
            counts: file.part(54)?,
        })
    }
}
