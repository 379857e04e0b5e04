// One step on what is lent, whose mail is not: the letter that it delivers is given, and what it posts is returned. The numbers of the
// sends are derived where the step asks for them: by a run that is no set and no add.
ghost use Rattle.std.specs.Prelude.{◌≡◌};
ghost use Rattle.plan.specs.Programs.{programs};
ghost use Rattle.plan.specs.Refusals.{plan_answer};
ghost use Rattle.plan_value.specs.Slots.{plan_in};
ghost use Rattle.board.specs.Lent.{lent};
ghost use Rattle.board.specs.Rigs.{RigOn};
ghost use Rattle.rig_step.specs.Acts.{numbers_of, OtherDone, Acts, CarriedOut};

use board::Board;
use board::act::{Act, Size, posted};
use network::position;
use plan_index::ends::numbers::put_numbers;
use rules::message::Message;
use rules::rule::Posting;
use rules::step::Step;
use steps::message::deliver;
use steps::word::word_run;
use steps::{not_run, other};

// A step that delivers no letter is carried out, with the numbers derived.
fn numbered<'a>(
    codes: &'a [u32; 4096],
    lengths: &'a [u8; 64],
    users: &'a [u8; 1024],
    hintprocessors: &'a mut [u8; 768],
    hintmoves: &'a mut [u16; 768],
    heldprocessors: &'a mut [u8; 768],
    heldnumbers: &'a mut [u8; 768],
    notes: &'a mut [u8; 768],
    board: &'a mut Board,
    n: Size,
    s: Step,
) -> Act
    requires { (plan_answer (programs (plan_in n.tasks lengths.now codes.now)) ≡ Ok tt)
        × RigOn codes.now (numbers_of n.tasks lengths.now codes.now) users.now n
        (lent hintprocessors.old hintmoves.old heldprocessors.old heldnumbers.old notes.old board.old) }
    ensures { OtherDone codes.now (numbers_of n.tasks lengths.now codes.now) users.now n s
        (lent hintprocessors.old hintmoves.old heldprocessors.old heldnumbers.old notes.old board.old)
        result
        (lent hintprocessors.new hintmoves.new heldprocessors.new heldnumbers.new notes.new board.new) }
{
    let mut numbers = [0u8; 4096];
    put_numbers(n.tasks, lengths, codes, &mut numbers);
    other(
        codes,
        &numbers,
        users,
        hintprocessors,
        hintmoves,
        heldprocessors,
        heldnumbers,
        notes,
        board,
        n,
        s,
    )
}

// The same, with the numbers derived only where they are asked for.
fn other_on<'a>(
    codes: &'a [u32; 4096],
    lengths: &'a [u8; 64],
    users: &'a [u8; 1024],
    hintprocessors: &'a mut [u8; 768],
    hintmoves: &'a mut [u16; 768],
    heldprocessors: &'a mut [u8; 768],
    heldnumbers: &'a mut [u8; 768],
    notes: &'a mut [u8; 768],
    board: &'a mut Board,
    n: Size,
    s: Step,
) -> Act
    requires { (plan_answer (programs (plan_in n.tasks lengths.now codes.now)) ≡ Ok tt)
        × RigOn codes.now (numbers_of n.tasks lengths.now codes.now) users.now n
        (lent hintprocessors.old hintmoves.old heldprocessors.old heldnumbers.old notes.old board.old) }
    ensures { OtherDone codes.now (numbers_of n.tasks lengths.now codes.now) users.now n s
        (lent hintprocessors.old hintmoves.old heldprocessors.old heldnumbers.old notes.old board.old)
        result
        (lent hintprocessors.new hintmoves.new heldprocessors.new heldnumbers.new notes.new board.new) }
{
    if s.kind != 1 {
        return not_run(users, hintprocessors, hintmoves, board, n, s);
    }
    if word_run(codes, board, n, s) {
        return posted(Posting::Nothing);
    }
    numbered(
        codes,
        lengths,
        users,
        hintprocessors,
        hintmoves,
        heldprocessors,
        heldnumbers,
        notes,
        board,
        n,
        s,
    )
}

// The step is carried out; it opens the letter, if it delivers one.
pub fn act_on<'a>(
    codes: &'a [u32; 4096],
    lengths: &'a [u8; 64],
    users: &'a [u8; 1024],
    hintprocessors: &'a mut [u8; 768],
    hintmoves: &'a mut [u16; 768],
    heldprocessors: &'a mut [u8; 768],
    heldnumbers: &'a mut [u8; 768],
    notes: &'a mut [u8; 768],
    board: &'a mut Board,
    n: Size,
    letter: Message,
    s: Step,
) -> Act
    requires { (plan_answer (programs (plan_in n.tasks lengths.now codes.now)) ≡ Ok tt)
        × Acts codes.now (numbers_of n.tasks lengths.now codes.now) users.now n
        (lent hintprocessors.old hintmoves.old heldprocessors.old heldnumbers.old notes.old board.old)
        letter s }
    ensures { CarriedOut codes.now (numbers_of n.tasks lengths.now codes.now) users.now n letter s
        (lent hintprocessors.old hintmoves.old heldprocessors.old heldnumbers.old notes.old board.old)
        result
        (lent hintprocessors.new hintmoves.new heldprocessors.new heldnumbers.new notes.new board.new) }
{
    if position(n.used, s) != 0 {
        return deliver(
            codes,
            users,
            hintprocessors,
            hintmoves,
            heldprocessors,
            heldnumbers,
            notes,
            board,
            letter,
        );
    }
    other_on(
        codes,
        lengths,
        users,
        hintprocessors,
        hintmoves,
        heldprocessors,
        heldnumbers,
        notes,
        board,
        n,
        s,
    )
}
