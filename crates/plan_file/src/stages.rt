// What follows of a header and of the instructions behind it.
ghost use Rattle.std.specs.Prelude.{◌≡◌, drop};
ghost use Rattle.plan_file.specs.Stages.{read_refused, plan_of, Fits, Loads};

use crate::Loaded;
use crate::code::read_code;
use crate::fields::rest_at;
use crate::header::Header;
use crate::scan::check_code;
use plan::{Plan, Refusal};

// A refused file gives the plan of no task.
fn refused(r: Refusal) -> Loaded
    ensures { Loads (read_refused r) result }
{
    Loaded {
        answer: Err(r),
        plan: Plan {
            tasks: 0,
            lengths: [0; 64],
            codes: [0; 4096],
        },
        parents: [0; 129],
        senders: [0; 129],
        receivers: [0; 129],
    }
}

// The answer about the plan whose instructions begin at a place, behind this header: the header's
// refusal, and then the instructions'.
pub fn answer_at(file: &[u8], at: usize, h: Header) -> Result<(), Refusal>
    requires { Fits h (drop at file.now) }
    ensures { result ≡ (plan_of h (drop at file.now)).answer }
{
    if !h.ok {
        return Err(Refusal::BadLayout);
    }
    let mut parents = [0u8; 129];
    let mut senders = [0u8; 129];
    let mut receivers = [0u8; 129];
    check_code(
        rest_at(file, at),
        h.tasks,
        &h.lengths,
        &mut parents,
        &mut senders,
        &mut receivers,
    )
}

// The plan whose instructions begin at a place, behind this header. They are read into a plan value only
// if they are accepted.
pub fn load_at(file: &[u8], at: usize, h: Header) -> Loaded
    requires { Fits h (drop at file.now) }
    ensures { Loads (plan_of h (drop at file.now)) result }
{
    if !h.ok {
        return refused(Refusal::BadLayout);
    }
    let rest = rest_at(file, at);
    let mut parents = [0u8; 129];
    let mut senders = [0u8; 129];
    let mut receivers = [0u8; 129];
    if let Err(r) = check_code(
        rest,
        h.tasks,
        &h.lengths,
        &mut parents,
        &mut senders,
        &mut receivers,
    ) {
        return refused(r);
    }
    let mut codes = [0u32; 4096];
    read_code(rest, h.tasks, &h.lengths, &mut codes);
    Loaded {
        answer: Ok(()),
        plan: Plan {
            tasks: h.tasks,
            lengths: h.lengths,
            codes,
        },
        parents,
        senders,
        receivers,
    }
}
