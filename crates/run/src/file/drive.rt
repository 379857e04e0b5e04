// The driver: makes the table of who uses what and the parts of a rig at its start, runs the steps on them and writes the trace.
ghost use Rattle.std.specs.Prelude.{◌≤◌, ◌/◌, length};
ghost use Rattle.rig_parts.specs.Facts.{facts};
ghost use Rattle.run.specs.file.Begins.{Begun};
ghost use Rattle.run.specs.file.Writes.{TraceOf};

use crate::all_steps::run_steps;
use crate::file::last::{emit_last, emit_marks};
use board::act::Size;
use board::sweeps::locate;
use plan::{ProcessorId, TaskId};
use plan_index::user_table::users::build;
use rig::rest::at_rest;
use rig::start::{no_messages, no_tables, start_board};
use rules::channel::Hint;

// How much of the output is filled, and whether every line fitted.
#[derive(Clone, Copy)]
pub struct Driven {
    pub filled: usize,
    pub whole: bool,
}

// The trace of an accepted plan from its start, by what is derived of it. The birth of task 1 at desk 1 sets pointers; the other
// tables have nothing yet.
pub fn drive<'a>(
    count: u8,
    codes: &'a [u32; 4096],
    numbers: &'a [u8; 4096],
    senders: &'a [u8; 129],
    receivers: &'a [u8; 129],
    parents: &'a [u8; 129],
    processors: u8,
    steps: &'a [u8],
    out: &'a mut [u8],
) -> Driven
    requires { (Begun processors (facts count codes.now numbers.now senders.now receivers.now parents.now))
        × (length steps.now / 4 ≤ 2000) }
    ensures { TraceOf processors
        (facts count codes.now numbers.now senders.now receivers.now parents.now)
        steps.now out.old result out.new }
{
    let mut users = [0u8; 1024];
    build(senders, receivers, parents, &mut users);
    let mut tables = no_tables();
    let mut board = [0u64; 1094];
    start_board(&mut board);
    let born = Hint {
        processor: ProcessorId(1),
        moves: 1,
    };
    locate(
        &users,
        &mut tables.hintprocessors,
        &mut tables.hintmoves,
        TaskId(1),
        ProcessorId(1),
        born,
    );
    let size = Size {
        tasks: count,
        processors,
        used: 0,
    };
    let network = no_messages();
    let mut progress = [0usize; 2];
    let network = run_steps(
        codes,
        numbers,
        &users,
        &mut tables.hintprocessors,
        &mut tables.hintmoves,
        &mut tables.heldprocessors,
        &mut tables.heldnumbers,
        &mut tables.notes,
        &mut board,
        size,
        network,
        steps,
        out,
        &mut progress,
    );
    emit_marks(out, &mut progress, &board, count);
    let messages = network.used;
    let rest = at_rest(count, codes, &board, messages);
    emit_last(out, &mut progress, rest, messages);
    Driven {
        filled: progress[0],
        whole: progress[1] == 0,
    }
}
