// A step that delivers no letter, carried out on what is lent: a set or an add by the short cut of a run over a step file.
ghost use Rattle.plan_index.specs.user_table.Users.{senders_of, receivers_of};
ghost use Rattle.board.specs.Lent.{lent, tasks_of, kept_of};
ghost use Rattle.board.specs.Acted.{Acted};
ghost use Rattle.board.specs.Rigs.{RigOn, facts_in};
ghost use Rattle.board.specs.Verdicts.{step_verdict};

use board::Board;
use board::act::{Act, Size, posted};
use rules::rule::Posting;
use rules::step::Step;
use steps::other;
use steps::word::word_run;

// What it is answered and posts; it is carried out, if it is accepted.
pub fn carry_out<'a>(
    codes: &'a [u32; 4096],
    numbers: &'a [u8; 4096],
    users: &'a [u8; 1024],
    hintprocessors: &'a mut [u8; 768],
    hintmoves: &'a mut [u16; 768],
    heldprocessors: &'a mut [u8; 768],
    heldnumbers: &'a mut [u8; 768],
    notes: &'a mut [u8; 768],
    board: &'a mut Board,
    n: Size,
    s: Step,
) -> Act
    requires { RigOn codes.now numbers.now users.now n
        (lent hintprocessors.old hintmoves.old heldprocessors.old heldnumbers.old notes.old board.old) }
    ensures { let l = lent hintprocessors.old hintmoves.old heldprocessors.old heldnumbers.old notes.old board.old in
        Acted (senders_of users.now) (receivers_of users.now)
        (step_verdict (facts_in n.tasks codes.now numbers.now users.now) n.processors (tasks_of l) (kept_of l) n.used s)
        l
        result
        (lent hintprocessors.new hintmoves.new heldprocessors.new heldnumbers.new notes.new board.new) }
{
    if word_run(codes, board, n, s) {
        return posted(Posting::Nothing);
    }
    other(
        codes,
        numbers,
        users,
        hintprocessors,
        hintmoves,
        heldprocessors,
        heldnumbers,
        notes,
        board,
        n,
        s,
    )
}
