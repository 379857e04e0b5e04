// The text that a record stands for, of an accepted plan.
use crate::record::Check;
use std::fmt::{self, Write};

// A text as far as it fits into 512 bytes: how long it is, and where its last line starts.
#[derive(Clone, Copy)]
pub struct Text {
    bytes: [u8; 512],
    length: usize,
    last: usize,
}

impl Text {
    // The verdict and the accepted run steps, and behind this line one for each pair of the list.
    pub fn of(check: &Check) -> Text {
        let verdict = if check.finishes { "yes" } else { "no" };
        let work = check.work;
        let mut text = Text {
            bytes: [0; 512],
            length: 0,
            last: 0,
        };
        let _ = writeln!(text, "{verdict} {work}");
        let (pairs, _) = check.list.as_chunks::<2>();
        for [task, on] in pairs {
            text.last = text.length;
            let _ = writeln!(text, "{task} {on}");
        }
        text
    }

    // All that fits.
    pub fn whole(&self) -> &[u8] {
        self.bytes.get(..self.length).unwrap_or(&self.bytes)
    }

    // Without the last line; nothing where there is no pair.
    pub fn before_last(&self) -> &[u8] {
        self.bytes.get(..self.last).unwrap_or(&self.bytes)
    }

    // One byte more, where there is space for it.
    fn put(&mut self, byte: u8) -> fmt::Result {
        match self.bytes.get_mut(self.length) {
            Some(place) => {
                *place = byte;
                self.length += 1;
                Ok(())
            }
            None => Err(fmt::Error),
        }
    }
}

impl Write for Text {
    fn write_str(&mut self, text: &str) -> fmt::Result {
        for byte in text.as_bytes() {
            self.put(*byte)?;
        }
        Ok(())
    }
}
