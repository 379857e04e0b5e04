// One step of a live rig.
ghost use Rattle.std.specs.Prelude.{◌≡◌, length};
ghost use Rattle.image.specs.Image.{rig_size};
ghost use Rattle.live_rig.specs.Turns.{Planned, SteppedIn, SteppedHeld};

use crate::letter::letter_at;
use crate::make::make;
use crate::open::{open_parts, plan_in};
use crate::ranges::{bytes_fit, counts_fit, numbers_fit};
use network::position;
use plan::Refusal;
use plan_index::user_table::users::build;
use rig_read::parts::read_chosen;
use rig_write::parts::write_lent;
use rules::step::{Report, Step, StepRefusal};
use steps::instruction::refusal::is_accepted;

// What a step says of bytes that 9 refuses.
fn bad_system() -> Report
    ensures { result ≡ record { answer = Err StepRefusal.BadSystem; received = None } }
{
    Report {
        answer: Err(StepRefusal::BadSystem),
        received: None,
    }
}

// A step of bytes whose plan is known: the parts are read, 9 is tested, the step is made on them and on the mail, and they are written where it is
// accepted.
fn step_parts<'a>(
    rig: &'a mut [u8],
    tasks: u8,
    lengths: &'a [u8; 64],
    codes: &'a [u32; 4096],
    users: &'a [u8; 1024],
    s: Step,
) -> Report
    requires { Planned rig.old lengths.now codes.now users.now tasks }
    ensures { SteppedIn rig.old s result rig.new }
{
    let mut hintprocessors = [0u8; 768];
    let mut hintmoves = [0u16; 768];
    let mut heldprocessors = [0u8; 768];
    let mut heldnumbers = [0u8; 768];
    let mut notes = [0u8; 768];
    let mut board = [0u64; 1094];
    bytes_fit(rig);
    let o = open_parts(
        rig,
        tasks,
        lengths,
        codes,
        &mut hintprocessors,
        &mut hintmoves,
        &mut heldprocessors,
        &mut heldnumbers,
        &mut notes,
        &mut board,
    );
    if !o.ok {
        return bad_system();
    }
    let n = o.size;
    let chosen = read_chosen(rig);
    let letter = letter_at(rig, position(n.used, s));
    let q = make(
        lengths,
        codes,
        users,
        &mut hintprocessors,
        &mut hintmoves,
        &mut heldprocessors,
        &mut heldnumbers,
        &mut notes,
        &mut board,
        &mut rig[30024..34120],
        n,
        letter,
        s,
    );
    let report = q.report;
    let answer = report.answer;
    if !is_accepted(answer) {
        return report;
    }
    bytes_fit(&hintprocessors);
    counts_fit(&hintmoves);
    bytes_fit(&heldprocessors);
    bytes_fit(&heldnumbers);
    bytes_fit(&notes);
    numbers_fit(&board);
    bytes_fit(&chosen);
    write_lent(
        rig,
        &hintprocessors,
        &hintmoves,
        &heldprocessors,
        &heldnumbers,
        &notes,
        &board,
        q.used,
        chosen,
    );
    report
}

// A step of bytes of a rig's size: their plan file is opened first.
fn step_image(rig: &mut [u8], s: Step) -> Report
    requires { length rig.old ≡ rig_size }
    ensures { SteppedIn rig.old s result rig.new }
{
    let mut codes = [0u32; 4096];
    let mut parents = [0u8; 129];
    let mut senders = [0u8; 129];
    let mut receivers = [0u8; 129];
    let read = plan_in(rig, &mut codes, &mut parents, &mut senders, &mut receivers);
    let answer = read.answer;
    match answer {
        Err(_) => bad_system(),
        Ok(()) => {
            let lengths = read.lengths;
            let mut users = [0u8; 1024];
            build(&senders, &receivers, &parents, &mut users);
            step_parts(rig, read.tasks, &lengths, &codes, &users, s)
        }
    }
}

// A step of a rig that may be followed by other bytes.
pub fn step_held(rig: &mut [u8], s: Step) -> Report
    ensures { SteppedHeld rig.old s result rig.new }
{
    if rig.len() < 34120 {
        return bad_system();
    }
    step_image(&mut rig[..34120], s)
}
