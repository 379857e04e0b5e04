// A conversion compared: its answer, and every byte of the output.
use crate::record::Conversion;
use plan::Refusal;
use show_files::records::{UNTOUCHED, is_left};

// The converter on the first `room` bytes of the output, and its answer.
fn convert_in(file: &[u8], room: usize, out: &mut [u8]) -> Result<usize, Refusal> {
    match out.get_mut(..room) {
        Some(lent) => convert::convert(file, lent),
        None => convert::convert(file, out),
    }
}

impl Conversion<'_> {
    // The converter gives this answer and leaves these bytes. The whole output is longer than any that is lent.
    pub fn agrees(&self) -> bool {
        let mut out = [UNTOUCHED; 65536];
        let as_expected = match convert_in(self.file, self.room, &mut out) {
            Ok(size) => self.number == 0 && size == self.written.len(),
            Err(refusal) => refusal.number() == u32::from(self.number) && self.written.is_empty(),
        };
        as_expected && is_left(&out, self.written)
    }
}
