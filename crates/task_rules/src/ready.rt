// Ready tasks at a desk: whether a task is one, and the next of a set of them.
ghost use Rattle.std.specs.Prelude.{◌≡◌, ◌≤◌, ◌*◌, ◌/◌, ◌^◌};
ghost use Rattle.rules.specs.Systems.{is_ready_at};
ghost use Rattle.rules.specs.Dispatch.{next_ready};

use crate::state;
use plan::ProcessorId;
use rules::task::{Task, TaskState};

// The task is ready, at desk d.
pub fn is_ready_at(x: Task, d: ProcessorId) -> bool
    ensures { result ≡ is_ready_at d x }
{
    state::is_in(x, TaskState::Ready) && state::is_at(x, d)
}

// The set without 1 to last, by a mask.
fn above(s: u64, last: u8) -> u64
    requires { last ≤ 64 }
    ensures { result ≡ s / 2 ^ last * 2 ^ last }
{
    if last == 64 {
        return 0;
    }
    s & (u64::MAX << last)
}

// Of tasks 1 to m in the set s, the next after the last one chosen, by number and round again; or 0. The trailing zeros of a set are
// what stands below its first member. The number 0 for none is the contract's: the last choices are kept as numbers.
pub fn next_ready(m: u8, last: u8, s: u64) -> u8
    requires { (m ≤ 64) × (last ≤ 64) }
    ensures { result ≡ next_ready m last s }
{
    let later = above(s, last);
    let below = later.trailing_zeros();
    if below < m as u32 {
        return below as u8 + 1;
    }
    let first = s.trailing_zeros();
    if first < last as u32 {
        return first as u8 + 1;
    }
    0
}
