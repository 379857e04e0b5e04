// Whether a rig in bytes is at rest, and how many letters are in its mail.
ghost use Rattle.std.specs.Prelude.{◌≡◌, ◌+◌, ◌*◌, ◌≤◌, length};
ghost use Rattle.board.specs.packing.Packed.{bit};
ghost use Rattle.image.specs.Image.{rig_size};
ghost use Rattle.live_rig.specs.Shows.{rest_on};

use crate::open::{open_parts, plan_in};
use plan::Refusal;
use rig::rest::at_rest;

// Both in one number.
fn rest_number(rest: bool, used: usize) -> u64
    requires { used ≤ 256 }
    ensures { result ≡ 256 * bit rest + 65536 * used }
{
    let letters = 65536 * (used as u64);
    if rest {
        return 256 + letters;
    }
    letters
}

// The answer of bytes of a rig's size.
pub fn rest_of(rig: &[u8]) -> u64
    requires { length rig.now ≡ rig_size }
    ensures { result ≡ rest_on rig.now }
{
    let mut codes = [0u32; 4096];
    let mut parents = [0u8; 129];
    let mut senders = [0u8; 129];
    let mut receivers = [0u8; 129];
    let read = plan_in(rig, &mut codes, &mut parents, &mut senders, &mut receivers);
    let answer = read.answer;
    match answer {
        Err(a) => 9,
        Ok(()) => {
            let lengths = read.lengths;
            let mut hintprocessors = [0u8; 768];
            let mut hintmoves = [0u16; 768];
            let mut heldprocessors = [0u8; 768];
            let mut heldnumbers = [0u8; 768];
            let mut notes = [0u8; 768];
            let mut board = [0u64; 1094];
            let o = open_parts(
                rig,
                read.tasks,
                &lengths,
                &codes,
                &mut hintprocessors,
                &mut hintmoves,
                &mut heldprocessors,
                &mut heldnumbers,
                &mut notes,
                &mut board,
            );
            if !o.ok {
                return 9;
            }
            let n = o.size;
            let used = n.used;
            let rest = at_rest(read.tasks, &codes, &board, used);
            rest_number(rest, used)
        }
    }
}
