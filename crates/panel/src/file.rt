// The panel after a plan file and a step file: a run whose lines nobody reads, and the counts of the rig that it leaves.
ghost use Rattle.std.specs.Prelude.{◌≡◌, ◌≤◌, ◌/◌, length};
ghost use Rattle.rules.specs.StepFiles.{steps_ok};
ghost use Rattle.rig_parts.specs.Facts.{facts};
ghost use Rattle.run.specs.file.Begins.{Begun};
ghost use Rattle.panel.specs.Files.{PanelOf, PanelFile};

use crate::counts::counts_on;
use board::act::Size;
use board::sweeps::locate;
use plan::{ProcessorId, Refusal, TaskId};
use plan_file::opening::open;
use plan_index::ends::numbers::put_numbers;
use plan_index::user_table::users::build;
use rig::start::{no_messages, no_tables, start_board};
use rules::channel::Hint;
use rules::step::RunRefusal;
use run::all_steps::run_steps;

// The answer, and the counts where it is accepted.
#[derive(Clone, Copy)]
pub struct Shown {
    pub answer: Result<(), RunRefusal>,
    pub counts: [u16; 27],
}

// The counts after the steps of an accepted plan from its start, by what is derived of it. The birth of task 1 at desk 1 sets
// pointers; the other tables have nothing yet.
fn counts_after<'a>(
    count: u8,
    codes: &'a [u32; 4096],
    numbers: &'a [u8; 4096],
    senders: &'a [u8; 129],
    receivers: &'a [u8; 129],
    parents: &'a [u8; 129],
    processors: u8,
    steps: &'a [u8],
) -> [u16; 27]
    requires { (Begun processors (facts count codes.now numbers.now senders.now receivers.now parents.now))
        × (length steps.now / 4 ≤ 2000) }
    ensures { PanelOf processors
        (facts count codes.now numbers.now senders.now receivers.now parents.now)
        steps.now result }
{
    let mut users = [0u8; 1024];
    build(senders, receivers, parents, &mut users);
    let tables = no_tables();
    let mut hintprocessors = tables.hintprocessors;
    let mut hintmoves = tables.hintmoves;
    let mut heldprocessors = tables.heldprocessors;
    let mut heldnumbers = tables.heldnumbers;
    let mut notes = tables.notes;
    let mut board = [0u64; 1094];
    start_board(&mut board);
    let one = ProcessorId(1);
    let born = Hint {
        processor: one,
        moves: 1,
    };
    locate(
        &users,
        &mut hintprocessors,
        &mut hintmoves,
        TaskId(1),
        one,
        born,
    );
    let size = Size {
        tasks: count,
        processors,
        used: 0,
    };
    let network = no_messages();
    let mut out = [0u8; 1];
    let mut progress = [0usize; 2];
    let after = run_steps(
        codes,
        numbers,
        &users,
        &mut hintprocessors,
        &mut hintmoves,
        &mut heldprocessors,
        &mut heldnumbers,
        &mut notes,
        &mut board,
        size,
        network,
        steps,
        &mut out,
        &mut progress,
    );
    let n = Size {
        tasks: count,
        processors,
        used: after.used,
    };
    counts_on(
        codes,
        numbers,
        &users,
        &hintprocessors,
        &hintmoves,
        &heldprocessors,
        &heldnumbers,
        &notes,
        &board,
        n,
    )
}

// A refused file has no count.
fn refused(answer: Result<(), RunRefusal>) -> Shown
    ensures { result.answer ≡ answer }
{
    Shown {
        answer,
        counts: [0u16; 27],
    }
}

// 1 to 6 as at start; 8; then the panel.
pub fn panel_file<'a>(processors: u32, plan: &'a [u8], steps: &'a [u8]) -> Shown
    ensures { PanelFile processors plan.now steps.now result.answer result.counts }
{
    if !(1..=6).contains(&processors) {
        return refused(Err(RunRefusal::Unstarted(Refusal::BadProcessors)));
    }
    let mut codes = [0u32; 4096];
    let mut parents = [0u8; 129];
    let mut senders = [0u8; 129];
    let mut receivers = [0u8; 129];
    let opened = open(plan, &mut codes, &mut parents, &mut senders, &mut receivers);
    match opened.answer {
        Err(a) => refused(Err(RunRefusal::Unstarted(a))),
        Ok(()) => {
            if !run::file::run::steps_ok(steps) {
                return refused(Err(RunRefusal::BadSteps));
            }
            let mut numbers = [0u8; 4096];
            put_numbers(opened.tasks, &opened.lengths, &codes, &mut numbers);
            let counts = counts_after(
                opened.tasks,
                &codes,
                &numbers,
                &senders,
                &receivers,
                &parents,
                processors as u8,
                steps,
            );
            Shown {
                answer: Ok(()),
                counts,
            }
        }
    }
}
