// A record: processors in 1 byte, the lengths of plan, steps and expected output in 2 bytes each, and then
// plan, steps and expected output: a trace, or `refused` and a number.
use plan_file::fields::byte_at;
use show_files::records::{Bytes, Record};

// What a record says.
#[derive(Clone, Copy)]
pub struct Recorded<'a> {
    pub processors: u8,
    pub plan: &'a [u8],
    pub steps: &'a [u8],
    pub output: &'a [u8],
}

impl<'a> Record<'a> for Recorded<'a> {
    fn read(file: &mut Bytes<'a>) -> Option<Recorded<'a>> {
        let processors = file.byte()?;
        let planned = file.word()?;
        let stepped = file.word()?;
        let filled = file.word()?;
        Some(Recorded {
            processors,
            plan: file.part(planned as usize)?,
            steps: file.part(stepped as usize)?,
            output: file.part(filled as usize)?,
        })
    }
}

impl Recorded<'_> {
    // The number of `refused N`, which has one digit; 0 for a trace. The first byte tells them apart.
    pub fn number(&self) -> u8 {
        if byte_at(self.output, 0) != b'r' {
            return 0;
        }
        byte_at(self.output, 8).saturating_sub(b'0')
    }
}
