// The records of a test's file, and the output of a call beside them.
ghost use Rattle.std.specs.Prelude.{◌≡◌, ◌<◌, ◌≤◌, ◌↔◌, ◌%◌, ◌/◌, ◌&&◌, ◌==◌, IsTrue, length, take, drop, get_or, MatchOption, IfOk, IfSome, All};
ghost use Rattle.std.specs.Int.{from_le_bytes, w16, w64};

use std::alloc::{AllocError, Global};

// What is left of a file that is gone through.
#[derive(Clone, Copy)]
pub struct Bytes<'a> {
    pub rest: &'a [u8],
}

impl<'a> Bytes<'a> {
    // The whole of a file.
    pub fn of(file: &'a [u8]) -> Bytes<'a>
        ensures { result.rest.now ≡ file.now }
    {
        Bytes { rest: file }
    }

    // Nothing is left.
    pub fn is_empty(&self) -> bool
        ensures { IsTrue result ↔ (length self.now.rest.now ≡ 0) }
    {
        self.rest.is_empty()
    }

    // The next bytes, so many; nothing where fewer are left.
    pub fn part(&mut self, size: usize) -> Option<&'a [u8]>
        ensures left { length self.new.rest.now ≤ length self.old.rest.now }
        ensures next { MatchOption result
            ((length self.old.rest.now < size) × (self.new.rest.now ≡ self.old.rest.now))
            (λ p. (p.now ≡ take size self.old.rest.now) × (self.new.rest.now ≡ drop size self.old.rest.now)) }
    {
        let (part, rest) = self.rest.split_at_checked(size)?;
        self.rest = rest;
        Some(part)
    }

    // The next byte.
    pub fn byte(&mut self) -> Option<u8>
        ensures left { length self.new.rest.now ≤ length self.old.rest.now }
        ensures goes_on { IfSome result (λ _. length self.new.rest.now < length self.old.rest.now) }
        ensures next { MatchOption result
            ((length self.old.rest.now ≡ 0) × (self.new.rest.now ≡ self.old.rest.now))
            (λ b. (b ≡ get_or self.old.rest.now 0 0) × (self.new.rest.now ≡ drop 1 self.old.rest.now)) }
    {
        let (first, rest) = self.rest.split_first()?;
        self.rest = rest;
        Some(*first)
    }

    // The next two bytes, the lower first.
    pub fn word(&mut self) -> Option<u16>
        ensures left { length self.new.rest.now ≤ length self.old.rest.now }
        ensures next { MatchOption result
            ((length self.old.rest.now < 2) × (self.new.rest.now ≡ self.old.rest.now))
            (λ w. (w ≡ from_le_bytes w16 (take 2 self.old.rest.now)) × (self.new.rest.now ≡ drop 2 self.old.rest.now)) }
    {
        let (first, rest) = self.rest.split_first_chunk::<2>()?;
        self.rest = rest;
        Some(u16::from_le_bytes(*first))
    }

    // The next eight bytes, the lowest first.
    pub fn long(&mut self) -> Option<u64>
        ensures left { length self.new.rest.now ≤ length self.old.rest.now }
        ensures next { MatchOption result
            ((length self.old.rest.now < 8) × (self.new.rest.now ≡ self.old.rest.now))
            (λ n. (n ≡ from_le_bytes w64 (take 8 self.old.rest.now)) × (self.new.rest.now ≡ drop 8 self.old.rest.now)) }
    {
        let (first, rest) = self.rest.split_first_chunk::<8>()?;
        self.rest = rest;
        Some(u64::from_le_bytes(*first))
    }
}

// A record of a test's file.
pub trait Record<'a>: Drop {
    // The next record, one byte at least; nothing where the file ends before it does.
    fn read(file: &mut Bytes<'a>) -> Option<Self>
        ensures { IfSome result (λ _. length file.new.rest.now < length file.old.rest.now) };
}

// Every whole record of the file, which has no more of them than bytes.
pub fn records<'a, R: Record<'a>>(alloc: Global, file: &'a [u8]) -> Result<Vec<R>, AllocError>
    ensures { IfOk result (λ rs. length rs.items ≤ length file.now) }
{
    let mut records = Vec::new(alloc);
    let mut rest = Bytes::of(file);
    for _ in file {
        let Some(record) = R::read(&mut rest) else {
            break;
        };
        records.push(record)?;
    }
    Ok(records)
}

// A record holds at every stage, or only from the request on that one-ended channels are refused, or that a
// word has four levels: not one that holds only before either.
pub fn holds_now(when: u8) -> bool
    ensures { result ≡ (when % 2 == 0 && when / 4 % 2 == 0) }
{
    when % 2 == 0 && (when / 4) % 2 == 0
}

// The number in a line behind these words.
pub fn number_behind(words: &[u8], line: &[u8]) -> Option<u8>
    ensures { IfSome result (λ n. take (length words.now) line.now ≡ words.now) }
{
    let digits = line.strip_prefix(words)?.strip_suffix(b"\n")?;
    str::from_utf8(digits).ok()?.parse().ok()
}

// The byte that an output holds before a call.
pub const UNTOUCHED: u8 = 165;

// The output begins with what is written, and the bytes behind it are untouched.
pub fn is_left(out: &[u8], written: &[u8]) -> bool
    ensures { IsTrue result ↔ ((take (length written.now) out.now ≡ written.now) × All (λ b. b ≡ 165) (drop (length written.now) out.now)) }
{
    match out.strip_prefix(written) {
        Some(rest) => rest.iter().all(|b| *b == UNTOUCHED),
        None => false,
    }
}

#[cfg(test)]
mod tests {
    use super::*;
    use std::test::Fail;

    // A record of a length in one byte, and of so many bytes.
    #[derive(Clone, Copy)]
    struct Counted<'a> {
        bytes: &'a [u8],
    }

    impl<'a> Record<'a> for Counted<'a> {
        fn read(file: &mut Bytes<'a>) -> Option<Counted<'a>> {
            let size = file.byte()?;
            Some(Counted {
                bytes: file.part(size as usize)?,
            })
        }
    }

    // Two records, and a third that is cut.
    #[test]
    fn keeps_whole_records(rt: HostRuntime) -> Result<(), Fail> {
        let all: Vec<Counted> = records(rt.alloc(), b"\x02ab\x00\x03cd")?;
        assert_eq!(rt; all.len(), 2);
        assert!(rt; all[0].bytes == b"ab".as_slice());
        assert!(rt; all[1].bytes.is_empty());
        Ok(())
    }

    #[test]
    fn finds_numbers(rt: HostRuntime) {
        assert_eq!(rt; number_behind(b"no ", b"no 7\n"), Some(7));
        assert_eq!(rt; number_behind(b"refused ", b"refused 24\n"), Some(24));
        assert_eq!(rt; number_behind(b"no ", b"no 7"), None, "no line feed");
        assert_eq!(rt;
            number_behind(b"no ", b"no 256\n"),
            None,
            "more than a byte"
        );
        assert_eq!(rt; number_behind(b"no ", b"yes\n"), None, "other words");
    }
}
