// A call of a desk's dispatcher on a live rig.
ghost use Rattle.std.specs.Prelude.{◌≡◌, length};
ghost use Rattle.image.specs.Image.{rig_size};
ghost use Rattle.live_rig.specs.Turns.{Planned};
ghost use Rattle.live_rig.specs.Calls.{CalledIn, CalledHeld, no_call};

use crate::call::both_turns;
use crate::letter::letter_at;
use crate::mail::earliest_in;
use crate::open::{open_parts, plan_in};
use crate::ranges::{bytes_fit, counts_fit, numbers_fit};
use plan::{ProcessorId, Refusal};
use plan_index::user_table::users::build;
use rig_read::parts::read_chosen;
use rig_write::parts::write_lent;
use rules::step::{Report, Step, StepRefusal};

// What a call says: its answer, the delivery and the run that it made.
#[derive(Clone, Copy)]
pub struct Call {
    pub answer: Result<(), StepRefusal>,
    pub delivery: Option<(Step, Report)>,
    pub run: Option<(Step, Report)>,
}

// A refused call makes no step.
fn no_call(answer: Result<(), StepRefusal>) -> Call
    ensures { result ≡ no_call answer }
{
    let none = None;
    let nothing = None;
    Call {
        answer: answer,
        delivery: none,
        run: nothing,
    }
}

// A call on bytes whose plan is known: the parts are read, 9 and 15 are tested, the two turns are made on the parts and on the mail, and the parts are
// written.
fn call_parts<'a>(
    rig: &'a mut [u8],
    tasks: u8,
    lengths: &'a [u8; 64],
    codes: &'a [u32; 4096],
    users: &'a [u8; 1024],
    d: ProcessorId,
) -> Call
    requires { Planned rig.old lengths.now codes.now users.now tasks }
    ensures { CalledIn rig.old d result rig.new }
{
    let mut hintprocessors = [0u8; 768];
    let mut hintmoves = [0u16; 768];
    let mut heldprocessors = [0u8; 768];
    let mut heldnumbers = [0u8; 768];
    let mut notes = [0u8; 768];
    let mut board = [0u64; 1094];
    bytes_fit(rig);
    let o = open_parts(
        rig,
        tasks,
        lengths,
        codes,
        &mut hintprocessors,
        &mut hintmoves,
        &mut heldprocessors,
        &mut heldnumbers,
        &mut notes,
        &mut board,
    );
    if !o.ok {
        return no_call(Err(StepRefusal::BadSystem));
    }
    let n = o.size;
    if !base::is_within(1, base::wide8(n.processors), base::wide8(d.0)) {
        return no_call(Err(StepRefusal::NoProcessor));
    }
    let mut chosen = read_chosen(rig);
    let p = earliest_in(rig, n.used, d);
    let letter = letter_at(rig, base::wide16(p));
    let q = both_turns(
        lengths,
        codes,
        users,
        &mut hintprocessors,
        &mut hintmoves,
        &mut heldprocessors,
        &mut heldnumbers,
        &mut notes,
        &mut board,
        &mut rig[30024..34120],
        n,
        letter,
        p,
        &mut chosen,
        d,
    );
    bytes_fit(&hintprocessors);
    counts_fit(&hintmoves);
    bytes_fit(&heldprocessors);
    bytes_fit(&heldnumbers);
    bytes_fit(&notes);
    numbers_fit(&board);
    bytes_fit(&chosen);
    write_lent(
        rig,
        &hintprocessors,
        &hintmoves,
        &heldprocessors,
        &heldnumbers,
        &notes,
        &board,
        q.used,
        chosen,
    );
    let delivery = q.delivery;
    let run = q.run;
    Call {
        answer: Ok(()),
        delivery: delivery,
        run: run,
    }
}

// A call on bytes of a rig's size: their plan file is opened first.
fn call_image(rig: &mut [u8], d: ProcessorId) -> Call
    requires { length rig.old ≡ rig_size }
    ensures { CalledIn rig.old d result rig.new }
{
    let mut codes = [0u32; 4096];
    let mut parents = [0u8; 129];
    let mut senders = [0u8; 129];
    let mut receivers = [0u8; 129];
    let read = plan_in(rig, &mut codes, &mut parents, &mut senders, &mut receivers);
    let answer = read.answer;
    match answer {
        Err(_) => no_call(Err(StepRefusal::BadSystem)),
        Ok(()) => {
            let lengths = read.lengths;
            let mut users = [0u8; 1024];
            build(&senders, &receivers, &parents, &mut users);
            call_parts(rig, read.tasks, &lengths, &codes, &users, d)
        }
    }
}

// A call on a rig that may be followed by other bytes.
pub fn call_held(rig: &mut [u8], d: ProcessorId) -> Call
    ensures { CalledHeld rig.old d result rig.new }
{
    if rig.len() < 34120 {
        return no_call(Err(StepRefusal::BadSystem));
    }
    call_image(&mut rig[..34120], d)
}
