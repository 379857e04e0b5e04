// A plan file checked, and read into what is lent, so that its instructions are copied once: for whoever needs no plan value.
ghost use Rattle.std.specs.Prelude.{◌≡◌, replicate};
ghost use Rattle.plan_file.specs.Opens.{PlanOpened};

use crate::code::read_code;
use crate::fields::rest_at;
use crate::header_of;
use crate::scan::check_code;
use plan::Refusal;

// The answer about a plan file; if it is accepted, how many tasks there are and how many instructions each has.
#[derive(Clone, Copy)]
pub struct Opened {
    pub answer: Result<(), Refusal>,
    pub tasks: u8,
    pub lengths: [u8; 64],
}

// A refused file.
fn refused(r: Refusal) -> Opened
    ensures { result.answer ≡ Err r }
{
    Opened {
        answer: Err(r),
        tasks: 0,
        lengths: [0; 64],
    }
}

// 2 to 6 of a plan file. If it is accepted, its instructions are in the slots that are lent, and each task's parent and each channel's
// sender and receiver in the tables, all of them empty before.
pub fn open<'a>(
    file: &'a [u8],
    codes: &'a mut [u32; 4096],
    parents: &'a mut [u8; 129],
    senders: &'a mut [u8; 129],
    receivers: &'a mut [u8; 129],
) -> Opened
    requires { (codes.old ≡ replicate 4096 0) × (parents.old ≡ replicate 129 0) × (senders.old ≡ replicate 129 0) × (receivers.old ≡ replicate 129 0) }
    ensures { PlanOpened file.now result codes.new parents.new senders.new receivers.new }
{
    let h = header_of(file);
    if !h.ok {
        return refused(Refusal::BadLayout);
    }
    let rest = rest_at(file, h.size);
    if let Err(r) = check_code(rest, h.tasks, &h.lengths, parents, senders, receivers) {
        return refused(r);
    }
    read_code(rest, h.tasks, &h.lengths, codes);
    Opened {
        answer: Ok(()),
        tasks: h.tasks,
        lengths: h.lengths,
    }
}
