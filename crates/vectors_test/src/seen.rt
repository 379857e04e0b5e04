// The expected bytes, gone through one after another.
use show_files::records::Bytes;

// The expected bytes that are left, and whether all before them were seen.
#[derive(Clone, Copy)]
pub struct Seen<'a> {
    left: Bytes<'a>,
    agree: bool,
}

impl<'a> Seen<'a> {
    // None is seen so far.
    pub fn of(expected: &'a [u8]) -> Seen<'a> {
        Seen {
            left: Bytes::of(expected),
            agree: true,
        }
    }

    // These are seen: they should be the next ones.
    pub fn see(&mut self, bytes: &[u8]) {
        let next = self.left.part(bytes.len());
        self.agree &= next == Some(bytes);
    }

    // All that were expected are seen, and no others.
    pub fn is_all(&self) -> bool {
        self.agree && self.left.is_empty()
    }
}
