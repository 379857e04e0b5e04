// A call of a desk's dispatcher on what is lent of a live rig: a delivery, and then a run.
ghost use Rattle.std.specs.Prelude.{◌≡◌, ◌≤◌};
ghost use Rattle.board.specs.Lent.{lent};
ghost use Rattle.live_rig.specs.Calls.{Takes, DeliveredOn, Runs, RanOn, TakesTurns, TurnsOn};

use crate::make::make;
use board::Board;
use board::act::Size;
use board::ready::ready_at;
use plan::ProcessorId;
use rules::message::Message;
use rules::step::{Report, Step};
use task_rules::ready::next_ready;

// A step that a call makes, or none, and how many letters there are then.
#[derive(Clone, Copy)]
pub struct Called {
    pub turn: Option<(Step, Report)>,
    pub used: usize,
}

// No step is made.
fn skipped(used: usize) -> Called
    ensures { (result.turn ≡ None) × (result.used ≡ used) }
{
    let none = None;
    Called {
        turn: none,
        used: used,
    }
}

// The letter at position p is delivered; at 0 none is.
fn delivery_turn<'a>(
    lengths: &'a [u8; 64],
    codes: &'a [u32; 4096],
    users: &'a [u8; 1024],
    hintprocessors: &'a mut [u8; 768],
    hintmoves: &'a mut [u16; 768],
    heldprocessors: &'a mut [u8; 768],
    heldnumbers: &'a mut [u8; 768],
    notes: &'a mut [u8; 768],
    board: &'a mut Board,
    mail: &'a mut [u8],
    n: Size,
    letter: Message,
    p: u16,
) -> Called
    requires { Takes lengths.now codes.now users.now n
        (lent hintprocessors.old hintmoves.old heldprocessors.old heldnumbers.old notes.old board.old)
        mail.old letter p }
    ensures { DeliveredOn lengths.now codes.now users.now n letter p
        (lent hintprocessors.old hintmoves.old heldprocessors.old heldnumbers.old notes.old board.old) mail.old
        result.turn result.used
        (lent hintprocessors.new hintmoves.new heldprocessors.new heldnumbers.new notes.new board.new) mail.new }
{
    if p == 0 {
        return skipped(n.used);
    }
    let s = Step {
        kind: 2,
        task: 0,
        number: p,
    };
    let m = make(
        lengths,
        codes,
        users,
        hintprocessors,
        hintmoves,
        heldprocessors,
        heldnumbers,
        notes,
        board,
        mail,
        n,
        letter,
        s,
    );
    let report = m.report;
    let turn = Some((s, report));
    Called {
        turn: turn,
        used: m.used,
    }
}

// The next ready task after the last one chosen is run, if there is one; a refused run uses the turn.
fn run_turn<'a>(
    lengths: &'a [u8; 64],
    codes: &'a [u32; 4096],
    users: &'a [u8; 1024],
    hintprocessors: &'a mut [u8; 768],
    hintmoves: &'a mut [u16; 768],
    heldprocessors: &'a mut [u8; 768],
    heldnumbers: &'a mut [u8; 768],
    notes: &'a mut [u8; 768],
    board: &'a mut Board,
    mail: &'a mut [u8],
    n: Size,
    last: &'a mut [u8; 6],
    d: ProcessorId,
) -> Called
    requires { Runs lengths.now codes.now users.now n
        (lent hintprocessors.old hintmoves.old heldprocessors.old heldnumbers.old notes.old board.old)
        mail.old last.old d }
    ensures { RanOn lengths.now codes.now users.now n d
        (lent hintprocessors.old hintmoves.old heldprocessors.old heldnumbers.old notes.old board.old) mail.old last.old
        result.turn result.used
        (lent hintprocessors.new hintmoves.new heldprocessors.new heldnumbers.new notes.new board.new) mail.new last.new }
{
    let k = base::wide8(d.0) - 1;
    let before = last[k];
    let t = next_ready(n.tasks, before, ready_at(board, d));
    if t == 0 {
        return skipped(n.used);
    }
    last[k] = t;
    let s = Step {
        kind: 1,
        task: t,
        number: 0,
    };
    let m = make(
        lengths,
        codes,
        users,
        hintprocessors,
        hintmoves,
        heldprocessors,
        heldnumbers,
        notes,
        board,
        mail,
        n,
        Message::Empty,
        s,
    );
    let report = m.report;
    let turn = Some((s, report));
    Called {
        turn: turn,
        used: m.used,
    }
}

// What a call makes: a delivery and a run, and how many letters there are then.
#[derive(Clone, Copy)]
pub struct BothTurns {
    pub delivery: Option<(Step, Report)>,
    pub run: Option<(Step, Report)>,
    pub used: usize,
}

// Both turns, with the letter that is delivered, at position p.
pub fn both_turns<'a>(
    lengths: &'a [u8; 64],
    codes: &'a [u32; 4096],
    users: &'a [u8; 1024],
    hintprocessors: &'a mut [u8; 768],
    hintmoves: &'a mut [u16; 768],
    heldprocessors: &'a mut [u8; 768],
    heldnumbers: &'a mut [u8; 768],
    notes: &'a mut [u8; 768],
    board: &'a mut Board,
    mail: &'a mut [u8],
    n: Size,
    letter: Message,
    p: u16,
    last: &'a mut [u8; 6],
    d: ProcessorId,
) -> BothTurns
    requires { TakesTurns lengths.now codes.now users.now n
        (lent hintprocessors.old hintmoves.old heldprocessors.old heldnumbers.old notes.old board.old)
        mail.old letter p last.old d }
    ensures { TurnsOn lengths.now codes.now users.now n letter p d
        (lent hintprocessors.old hintmoves.old heldprocessors.old heldnumbers.old notes.old board.old) mail.old last.old
        result.delivery result.run result.used
        (lent hintprocessors.new hintmoves.new heldprocessors.new heldnumbers.new notes.new board.new) mail.new last.new }
{
    let a = delivery_turn(
        lengths,
        codes,
        users,
        hintprocessors,
        hintmoves,
        heldprocessors,
        heldnumbers,
        notes,
        board,
        mail,
        n,
        letter,
        p,
    );
    let delivery = a.turn;
    let m = Size {
        tasks: n.tasks,
        processors: n.processors,
        used: a.used,
    };
    let b = run_turn(
        lengths,
        codes,
        users,
        hintprocessors,
        hintmoves,
        heldprocessors,
        heldnumbers,
        notes,
        board,
        mail,
        m,
        last,
        d,
    );
    let run = b.turn;
    BothTurns {
        delivery: delivery,
        run: run,
        used: b.used,
    }
}
