// A record: when it holds (1 byte), the lengths of the file and of the lent output (2 bytes each), the answer
// (1 byte), the length of what is written (2 bytes); then the file and what is written.
use show_files::records::{Bytes, Record};

// What a record says.
#[derive(Clone, Copy)]
pub struct Conversion<'a> {
    pub when: u8,
    pub room: usize,
    pub number: u8,
    pub file: &'a [u8],
    pub written: &'a [u8],
}

impl<'a> Record<'a> for Conversion<'a> {
    fn read(file: &mut Bytes<'a>) -> Option<Conversion<'a>> {
        let when = file.byte()?;
        let size = file.word()?;
        let room = file.word()?;
        let number = file.byte()?;
        let filled = file.word()?;
        Some(Conversion {
            when,
            room: room as usize,
            number,
            file: file.part(size as usize)?,
            written: file.part(filled as usize)?,
        })
    }
}
