// The records of each channel of a log, linked. A place is a record's number from 1 on, and 0 is none.
ghost use Rattle.std.specs.Prelude.{◌≡◌, true};
ghost use Rattle.rules.specs.LogFiles.{log_length_ok};
ghost use Rattle.logs.specs.Places.{Linked};

use crate::records::channel;

// Whether 25 refuses no record; then the place of the first record of each channel, and of the next one behind each
// record on the same channel. The flag stands beside the tables: an Option of them was copied once more, 8 KB.
#[derive(Clone, Copy)]
pub struct Links {
    pub ok: bool,
    pub first: [u16; 129],
    pub next: [u16; 4096],
}

// One pass, from the last record to the first.
pub fn link(log: &[u8]) -> Links
    requires { log_length_ok log.now ≡ true }
    ensures { Linked log.now result }
{
    let mut first = [0u16; 129];
    let mut next = [0u16; 4096];
    for k in (0..log.len() / 10).rev() {
        let c = channel(log, k);
        if !(1..=128).contains(&c) {
            return Links {
                ok: false,
                first,
                next,
            };
        }
        next[k] = first[c];
        first[c] = k as u16 + 1;
    }
    Links {
        ok: true,
        first,
        next,
    }
}
