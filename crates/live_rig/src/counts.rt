// How many steps of a rig in bytes get each number.
ghost use Rattle.std.specs.Prelude.{false, ◌≡◌, length};
ghost use Rattle.image.specs.Image.{rig_size};
ghost use Rattle.image.specs.Live.{held};
ghost use Rattle.live_rig.specs.Shows.{Counts};

use crate::open::{open_parts, plan_in};
use panel::counts::counts_on;
use plan::Refusal;
use plan_index::ends::numbers::put_numbers;
use plan_index::user_table::users::build;

// Whether 9 does not refuse the rig, and its counts then.
#[derive(Clone, Copy)]
pub struct Counted {
    pub ok: bool,
    pub counts: [u16; 27],
}

// 9 has no counts.
fn refused() -> Counted
    ensures { result.ok ≡ false }
{
    Counted {
        ok: false,
        counts: [0; 27],
    }
}

// The counts of the rig in bytes of a rig's size.
fn counts_of(rig: &[u8]) -> Counted
    requires { length rig.now ≡ rig_size }
    ensures { Counts rig.now result }
{
    let mut codes = [0u32; 4096];
    let mut parents = [0u8; 129];
    let mut senders = [0u8; 129];
    let mut receivers = [0u8; 129];
    let read = plan_in(rig, &mut codes, &mut parents, &mut senders, &mut receivers);
    let answer = read.answer;
    match answer {
        Err(a) => refused(),
        Ok(()) => {
            let lengths = read.lengths;
            let mut hintprocessors = [0u8; 768];
            let mut hintmoves = [0u16; 768];
            let mut heldprocessors = [0u8; 768];
            let mut heldnumbers = [0u8; 768];
            let mut notes = [0u8; 768];
            let mut board = [0u64; 1094];
            let o = open_parts(
                rig,
                read.tasks,
                &lengths,
                &codes,
                &mut hintprocessors,
                &mut hintmoves,
                &mut heldprocessors,
                &mut heldnumbers,
                &mut notes,
                &mut board,
            );
            if !o.ok {
                return refused();
            }
            let mut numbers = [0u8; 4096];
            put_numbers(read.tasks, &lengths, &codes, &mut numbers);
            let mut users = [0u8; 1024];
            build(&senders, &receivers, &parents, &mut users);
            let n = o.size;
            let counts = counts_on(
                &codes,
                &numbers,
                &users,
                &hintprocessors,
                &hintmoves,
                &heldprocessors,
                &heldnumbers,
                &notes,
                &board,
                n,
            );
            Counted {
                ok: true,
                counts: counts,
            }
        }
    }
}

// The counts of the rig in lent bytes.
pub fn counts_in(rig: &[u8]) -> Counted
    ensures { Counts (held rig.now) result }
{
    if rig.len() < 34120 {
        return refused();
    }
    counts_of(&rig[..34120])
}
