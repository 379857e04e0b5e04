// The header of a plan file: T, N, and each task's offset and count.
ghost use Rattle.std.specs.Prelude.{◌≡◌, ◌≤◌, length, drop};
ghost use Rattle.plan_file.specs.Header.{no_header, header_of, entries_of};

use crate::fields::{rest_at, word_at};

// What a header says: whether the file's layout is in order, and then how many bytes the header takes,
// how many tasks there are and how many instructions each has.
#[derive(Clone, Copy)]
pub struct Header {
    pub ok: bool,
    pub size: usize,
    pub tasks: u8,
    pub lengths: [u8; 64],
}

// The entries of the tasks: where the last task ends, and how many instructions each has.
#[derive(Clone, Copy)]
pub struct Entries {
    pub end: usize,
    pub lengths: [u8; 64],
}

impl Header {
    fn none() -> Header
        ensures { result ≡ no_header }
    {
        Header {
            ok: false,
            size: 0,
            tasks: 0,
            lengths: [0; 64],
        }
    }
}

// The entries of n tasks, each with a count in range and with the offset where the one before ends.
fn read_entries(file: &[u8], n: usize) -> Option<Entries>
    requires { n ≤ 64 }
    ensures { result ≡ entries_of file.now n }
{
    let mut lengths = [0u8; 64];
    let mut end = 4 + 4 * n;
    for k in 0..n {
        let offset = word_at(file, 4 + 4 * k) as usize;
        let count = word_at(file, 6 + 4 * k) as usize;
        if !(1..=64).contains(&count) || offset != end {
            return None;
        }
        lengths[k] = count as u8;
        end += 4 * count;
    }
    Some(Entries { end, lengths })
}

// The header of a file with so many bytes.
fn read_header(file: &[u8], left: usize) -> Header
    requires { left ≡ length file.now }
    ensures { result ≡ header_of file.now }
{
    if left < 4 {
        return Header::none();
    }
    let n = word_at(file, 0) as usize;
    if !(1..=64).contains(&n) {
        return Header::none();
    }
    let Some(entries) = read_entries(file, n) else {
        return Header::none();
    };
    let total = word_at(file, 2) as usize;
    let size = 4 + 4 * n;
    if entries.end != size + 4 * total || left != entries.end {
        return Header::none();
    }
    let lengths = entries.lengths;
    Header {
        ok: true,
        size,
        tasks: n as u8,
        lengths,
    }
}

// The header at a place, of the file that begins there and has so many bytes left.
pub fn header_at(file: &[u8], at: usize, left: usize) -> Header
    requires { left ≡ length (drop at file.now) }
    ensures { result ≡ header_of (drop at file.now) }
{
    read_header(rest_at(file, at), left)
}
