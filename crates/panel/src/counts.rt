// How many runs, deliveries and moves of a rig get each number, on what is lent: each is decided, and none is carried out.
ghost use Rattle.std.specs.Prelude.{◌≡◌, ℕ, ◌+◌, ◌≤◌, replicate};
ghost use Rattle.rules.specs.declared.system.System.{System};
ghost use Rattle.rules.specs.Answers.{step_number};
ghost use Rattle.rules.specs.Panel.{panel_steps};
ghost use Rattle.rules.specs.Numbers.{task_id};
ghost use Rattle.rig_parts.specs.RunVerdicts.{judged_run};
ghost use Rattle.board.specs.Lent.{lent, tasks_on, tasks_of, kept_of};
ghost use Rattle.board.specs.Acted.{act_of};
ghost use Rattle.board.specs.Rigs.{RigOn, facts_in};
ghost use Rattle.panel_laws.specs.Tallies.{tallied, runs, deliveries, moves_of, moves};
ghost use Rattle.panel.specs.Counted.{Few, CountsMore, RunsAs, delivery_of, DeliversAs, MovesAs, Lends};
ghost use Rattle.panel.specs.Tally.{counts_of, raised};

use board::Board;
use board::act::Size;
use network::position;
use plan::TaskId;
use rules::step::{Step, StepRefusal};
use steps::instruction::refusal::run_refusal;
use steps::instruction::run::run_decided;
use steps::moves::move_refusal;

// How many steps got each answer. A loop has these in registers, where a count in memory would wait for the one before it.
#[derive(Clone, Copy)]
struct Tally {
    accepted: u16,
    system: u16,
    task: u16,
    ready: u16,
    finish: u16,
    full: u16,
    message: u16,
    processor: u16,
    there: u16,
    children: u16,
    spent: u16,
    step: u16,
}

// No step yet.
fn none() -> Tally
    ensures { counts_of result ≡ replicate 27 0 }
{
    Tally {
        accepted: 0,
        system: 0,
        task: 0,
        ready: 0,
        finish: 0,
        full: 0,
        message: 0,
        processor: 0,
        there: 0,
        children: 0,
        spent: 0,
        step: 0,
    }
}

// One step more got this answer.
fn more(q: Tally, a: Result<(), StepRefusal>) -> Tally
    requires { Few 65534 (counts_of q) }
    ensures { counts_of result ≡ raised (counts_of q) (step_number a) }
{
    match a {
        Ok(()) => Tally {
            accepted: q.accepted + 1,
            ..q
        },
        Err(StepRefusal::BadSystem) => Tally {
            system: q.system + 1,
            ..q
        },
        Err(StepRefusal::NoTask) => Tally {
            task: q.task + 1,
            ..q
        },
        Err(StepRefusal::NotReady) => Tally {
            ready: q.ready + 1,
            ..q
        },
        Err(StepRefusal::FinishWithChildren) => Tally {
            finish: q.finish + 1,
            ..q
        },
        Err(StepRefusal::NetworkFull) => Tally {
            full: q.full + 1,
            ..q
        },
        Err(StepRefusal::NoMessage) => Tally {
            message: q.message + 1,
            ..q
        },
        Err(StepRefusal::NoProcessor) => Tally {
            processor: q.processor + 1,
            ..q
        },
        Err(StepRefusal::AlreadyThere) => Tally {
            there: q.there + 1,
            ..q
        },
        Err(StepRefusal::MoveWithChildren) => Tally {
            children: q.children + 1,
            ..q
        },
        Err(StepRefusal::MovesSpent) => Tally {
            spent: q.spent + 1,
            ..q
        },
        Err(StepRefusal::BadStep) => Tally {
            step: q.step + 1,
            ..q
        },
    }
}

// Each count at its number.
fn put_out(q: Tally) -> [u16; 27]
    ensures { result ≡ counts_of q }
{
    let mut counts = [0u16; 27];
    counts[0] = q.accepted;
    counts[9] = q.system;
    counts[10] = q.task;
    counts[11] = q.ready;
    counts[12] = q.finish;
    counts[13] = q.full;
    counts[14] = q.message;
    counts[15] = q.processor;
    counts[16] = q.there;
    counts[17] = q.children;
    counts[18] = q.spent;
    counts[19] = q.step;
    counts
}

// What a run of task t would be answered. Seven free places take what any run posts: then its first tests alone refuse. Else the run is
// decided as a whole.
fn run_answer<'a>(
    codes: &'a [u32; 4096],
    numbers: &'a [u8; 4096],
    users: &'a [u8; 1024],
    hintprocessors: &'a [u8; 768],
    hintmoves: &'a [u16; 768],
    heldprocessors: &'a [u8; 768],
    heldnumbers: &'a [u8; 768],
    notes: &'a [u8; 768],
    board: &'a Board,
    n: Size,
    t: u8,
) -> Result<(), StepRefusal>
    requires { RigOn codes.now numbers.now users.now n
        (lent hintprocessors.now hintmoves.now heldprocessors.now heldnumbers.now notes.now board.now) }
    ensures { let l = lent hintprocessors.now hintmoves.now heldprocessors.now heldnumbers.now notes.now board.now in
        result ≡ (act_of (judged_run (facts_in n.tasks codes.now numbers.now users.now) n.processors (tasks_of l) (kept_of l) n.used (task_id t))).answer }
{
    if n.used < 250 {
        return run_refusal(codes, board, n.tasks, TaskId(t));
    }
    run_decided(
        codes,
        numbers,
        users,
        hintprocessors,
        hintmoves,
        heldprocessors,
        heldnumbers,
        notes,
        board,
        n,
        TaskId(t),
    )
    .answer
}

// The runs of tasks 1 to T.
fn count_runs<'a>(
    codes: &'a [u32; 4096],
    numbers: &'a [u8; 4096],
    users: &'a [u8; 1024],
    hintprocessors: &'a [u8; 768],
    hintmoves: &'a [u16; 768],
    heldprocessors: &'a [u8; 768],
    heldnumbers: &'a [u8; 768],
    notes: &'a [u8; 768],
    board: &'a Board,
    n: Size,
    before: Tally,
) -> Tally
    requires { (RigOn codes.now numbers.now users.now n
        (lent hintprocessors.now hintmoves.now heldprocessors.now heldnumbers.now notes.now board.now))
        × (n.tasks ≤ 64) × (Few 0 (counts_of before)) }
    ensures { (Few 64 (counts_of result))
        × ((r : System) → RunsAs (facts_in n.tasks codes.now numbers.now users.now) n
        (lent hintprocessors.now hintmoves.now heldprocessors.now heldnumbers.now notes.now board.now) r
        → CountsMore r (runs n.tasks) (counts_of before) (counts_of result)) }
{
    let mut q = before;
    for k in 0..n.tasks {
        let a = run_answer(
            codes,
            numbers,
            users,
            hintprocessors,
            hintmoves,
            heldprocessors,
            heldnumbers,
            notes,
            board,
            n,
            k + 1,
        );
        q = more(q, a);
    }
    q
}
// What a delivery at position p would be answered, of so many letters: only its position is asked.
fn delivery_answer(used: usize, p: u16) -> Result<(), StepRefusal>
    ensures { result ≡ delivery_of used p }
{
    let s = Step {
        kind: 2,
        task: 0,
        number: p,
    };
    if position(used, s) == 0 {
        return Err(StepRefusal::NoMessage);
    }
    Ok(())
}

// The deliveries at 1 to 256.
fn count_deliveries(used: usize, before: Tally) -> Tally
    requires { Few 64 (counts_of before) }
    ensures { (Few 320 (counts_of result))
        × ((r : System) → DeliversAs used r → CountsMore r (deliveries 256) (counts_of before) (counts_of result)) }
{
    let mut q = before;
    for k in 0..256 {
        q = more(q, delivery_answer(used, k + 1));
    }
    q
}

// The moves of task t to desks 1 to n.
fn count_moves_of(board: &Board, n: Size, t: u8, before: Tally) -> Tally
    requires { (n.tasks ≤ 64) × (n.processors ≤ 6) × (Few 698 (counts_of before)) }
    ensures { ((l : ℕ) → Few l (counts_of before) → Few (l + 6) (counts_of result))
        × ((r : System) → MovesAs (tasks_on board.now) n r → CountsMore r (moves_of t n.processors) (counts_of before) (counts_of result)) }
{
    let mut q = before;
    for k in 0..n.processors {
        let d = k + 1;
        q = more(q, move_refusal(board, n, TaskId(t), d as u16));
    }
    q
}

// The moves of tasks 1 to T to desks 1 to n.
fn count_moves(board: &Board, n: Size, before: Tally) -> Tally
    requires { (n.tasks ≤ 64) × (n.processors ≤ 6) × (Few 320 (counts_of before)) }
    ensures { (r : System) → MovesAs (tasks_on board.now) n r
        → CountsMore r (moves n.tasks n.processors) (counts_of before) (counts_of result) }
{
    let mut q = before;
    for k in 0..n.tasks {
        q = count_moves_of(board, n, k + 1, q);
    }
    q
}

// All of them, of the rig that is lent.
pub fn counts_on<'a>(
    codes: &'a [u32; 4096],
    numbers: &'a [u8; 4096],
    users: &'a [u8; 1024],
    hintprocessors: &'a [u8; 768],
    hintmoves: &'a [u16; 768],
    heldprocessors: &'a [u8; 768],
    heldnumbers: &'a [u8; 768],
    notes: &'a [u8; 768],
    board: &'a Board,
    n: Size,
) -> [u16; 27]
    requires { RigOn codes.now numbers.now users.now n
        (lent hintprocessors.now hintmoves.now heldprocessors.now heldnumbers.now notes.now board.now) }
    ensures { (r : System) → Lends r codes.now numbers.now users.now n
        (lent hintprocessors.now hintmoves.now heldprocessors.now heldnumbers.now notes.now board.now)
        → result ≡ tallied r (panel_steps n.tasks n.processors) }
{
    let ran = count_runs(
        codes,
        numbers,
        users,
        hintprocessors,
        hintmoves,
        heldprocessors,
        heldnumbers,
        notes,
        board,
        n,
        none(),
    );
    let delivered = count_deliveries(n.used, ran);
    let moved = count_moves(board, n, delivered);
    put_out(moved)
}
