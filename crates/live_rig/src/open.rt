// A rig that is lent as bytes, opened: its plan file is opened, its parts are read, and 9 is tested.
ghost use Rattle.std.specs.Prelude.{◌≡◌, length};
ghost use Rattle.board.specs.Lent.{lent};
ghost use Rattle.image.specs.Image.{rig_size};
ghost use Rattle.rig_read.specs.Room.{Room};
ghost use Rattle.live_rig.specs.Open.{Blank, PlanIn, PlanOf, Opens};

use board::Board;
use board::act::Size;
use plan::Refusal;
use plan_file::opening::{Opened, open};
use rig_read::check::passes;
use rig_read::numbers::number4;
use rig_read::parts::{read_chosen, read_parts};

// Whether 9 does not refuse the bytes, and how large their rig is.
#[derive(Clone, Copy)]
pub struct Opening {
    pub ok: bool,
    pub size: Size,
}

// No plan: its file is too long.
fn no_plan() -> Opened
    ensures { result.answer ≡ Err Refusal.BadLayout }
{
    let answer = Err(Refusal::BadLayout);
    Opened {
        answer: answer,
        tasks: 0,
        lengths: [0; 64],
    }
}

// The plan file of a rig's bytes opened into what is lent.
pub fn plan_in<'a>(
    rig: &'a [u8],
    codes: &'a mut [u32; 4096],
    parents: &'a mut [u8; 129],
    senders: &'a mut [u8; 129],
    receivers: &'a mut [u8; 129],
) -> Opened
    requires { (length rig.now ≡ rig_size) × Blank codes.old parents.old senders.old receivers.old }
    ensures { PlanIn rig.now result codes.new parents.new senders.new receivers.new }
{
    let size = number4(rig, 4);
    if 16644 < size {
        return no_plan();
    }
    let end = 20 + size;
    open(&rig[20..end], codes, parents, senders, receivers)
}

// The parts of a rig's bytes, whose plan is known, are put into what is lent, and 9 is tested.
pub fn open_parts<'a>(
    rig: &'a [u8],
    tasks: u8,
    lengths: &'a [u8; 64],
    codes: &'a [u32; 4096],
    hintprocessors: &'a mut [u8; 768],
    hintmoves: &'a mut [u16; 768],
    heldprocessors: &'a mut [u8; 768],
    heldnumbers: &'a mut [u8; 768],
    notes: &'a mut [u8; 768],
    board: &'a mut Board,
) -> Opening
    requires { (length rig.now ≡ rig_size)
        × PlanOf rig.now tasks lengths.now codes.now
        × Room (lent hintprocessors.old hintmoves.old heldprocessors.old heldnumbers.old notes.old board.old) }
    ensures { Opens rig.now result
        (lent hintprocessors.new hintmoves.new heldprocessors.new heldnumbers.new notes.new board.new) }
{
    read_parts(
        rig,
        hintprocessors,
        hintmoves,
        heldprocessors,
        heldnumbers,
        notes,
        board,
    );
    let used = number4(rig, 8);
    let chosen = read_chosen(rig);
    let processors = rig[12];
    let n = Size {
        tasks: tasks,
        processors: processors,
        used: used,
    };
    let ok = passes(
        rig,
        lengths,
        codes,
        hintprocessors,
        hintmoves,
        heldprocessors,
        heldnumbers,
        notes,
        board,
        n,
        chosen,
    );
    Opening { ok: ok, size: n }
}
