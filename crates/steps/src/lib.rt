// A step on what a run lends: decided, or decided and carried out. Any step that delivers no letter is answered here.
#![tactic(auto)]

// A run: an instruction of each kind; refusals 10 to 13.
pub mod instruction;
// A delivery: a letter of each kind.
pub mod message;
// A move.
pub mod moves;
// A run that changes a word only.
pub mod word;

ghost use Rattle.std.specs.Prelude.{◌≢◌, ◌≡◌};
ghost use Rattle.plan.specs.Numbers.{task_id};
ghost use Rattle.plan_index.specs.user_table.Users.{senders_of, receivers_of};
ghost use Rattle.board.specs.Lent.{lent, tasks_of, kept_of};
ghost use Rattle.board.specs.Acted.{Acted, act_of, refused_act};
ghost use Rattle.board.specs.Rigs.{RigOn, facts_in};
ghost use Rattle.board.specs.Verdicts.{step_verdict};
ghost use Rattle.steps.specs.Kinds.{kind_refusal};
ghost use Rattle.steps.specs.Moves.{CanMove, NotRun};

use crate::instruction::run::{run, run_decided};
use board::Board;
use board::act::{Act, Size, refused};
use moves::{move_decided, move_task};
use plan::TaskId;
use rules::step::{Step, StepRefusal};

// A step that is no run and no move, and delivers nothing.
fn no_message(s: Step) -> Act
    ensures { result ≡ refused_act (Err (kind_refusal s)) }
{
    if s.kind == 2 && s.task == 0 {
        return refused(Err(StepRefusal::NoMessage));
    }
    refused(Err(StepRefusal::BadStep))
}

// A step that is no run is carried out: a move, or none. Neither codes nor numbers are asked.
pub fn not_run<'a>(
    users: &'a [u8; 1024],
    hintprocessors: &'a mut [u8; 768],
    hintmoves: &'a mut [u16; 768],
    board: &'a mut Board,
    n: Size,
    s: Step,
) -> Act
    requires { (s.kind ≢ 1) × CanMove users.now board.old n.tasks (task_id s.task) }
    ensures { NotRun users.now n s
        hintprocessors.old hintmoves.old board.old result
        hintprocessors.new hintmoves.new board.new }
{
    if s.kind == 3 {
        return move_task(
            users,
            hintprocessors,
            hintmoves,
            board,
            n,
            TaskId(s.task),
            s.number,
        );
    }
    no_message(s)
}

// The step is carried out, by its kind.
pub fn other<'a>(
    codes: &'a [u32; 4096],
    numbers: &'a [u8; 4096],
    users: &'a [u8; 1024],
    hintprocessors: &'a mut [u8; 768],
    hintmoves: &'a mut [u16; 768],
    heldprocessors: &'a mut [u8; 768],
    heldnumbers: &'a mut [u8; 768],
    notes: &'a mut [u8; 768],
    board: &'a mut Board,
    n: Size,
    s: Step,
) -> Act
    requires { RigOn codes.now numbers.now users.now n
        (lent hintprocessors.old hintmoves.old heldprocessors.old heldnumbers.old notes.old board.old) }
    ensures { let l = lent hintprocessors.old hintmoves.old heldprocessors.old heldnumbers.old notes.old board.old in
        Acted (senders_of users.now) (receivers_of users.now)
        (step_verdict (facts_in n.tasks codes.now numbers.now users.now) n.processors (tasks_of l) (kept_of l) n.used s)
        l
        result
        (lent hintprocessors.new hintmoves.new heldprocessors.new heldnumbers.new notes.new board.new) }
{
    if s.kind == 1 {
        if s.number != 0 {
            return refused(Err(StepRefusal::BadStep));
        }
        return run(
            codes,
            numbers,
            users,
            hintprocessors,
            hintmoves,
            heldprocessors,
            heldnumbers,
            notes,
            board,
            n,
            TaskId(s.task),
        );
    }
    not_run(users, hintprocessors, hintmoves, board, n, s)
}

// What the step is answered and would post; nothing is changed.
pub fn step_decided<'a>(
    codes: &'a [u32; 4096],
    numbers: &'a [u8; 4096],
    users: &'a [u8; 1024],
    hintprocessors: &'a [u8; 768],
    hintmoves: &'a [u16; 768],
    heldprocessors: &'a [u8; 768],
    heldnumbers: &'a [u8; 768],
    notes: &'a [u8; 768],
    board: &'a Board,
    n: Size,
    s: Step,
) -> Act
    requires { RigOn codes.now numbers.now users.now n
        (lent hintprocessors.now hintmoves.now heldprocessors.now heldnumbers.now notes.now board.now) }
    ensures { let l = lent hintprocessors.now hintmoves.now heldprocessors.now heldnumbers.now notes.now board.now in
        result ≡ act_of (step_verdict (facts_in n.tasks codes.now numbers.now users.now) n.processors (tasks_of l) (kept_of l) n.used s) }
{
    if s.kind == 1 {
        if s.number != 0 {
            return refused(Err(StepRefusal::BadStep));
        }
        return run_decided(
            codes,
            numbers,
            users,
            hintprocessors,
            hintmoves,
            heldprocessors,
            heldnumbers,
            notes,
            board,
            n,
            TaskId(s.task),
        );
    }
    if s.kind == 3 {
        return move_decided(board, n, TaskId(s.task), s.number);
    }
    no_message(s)
}
