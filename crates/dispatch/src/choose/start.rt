// The choice from the start of a plan: the rig is made on a board, and the desks are called.
ghost use Rattle.rig_parts.specs.Facts.{facts};
ghost use Rattle.run.specs.file.Begins.{Begun};
ghost use Rattle.dispatch.specs.Boards.{ChosenOf};

use crate::choose::calls::call_desks;
use board::act::Size;
use board::sweeps::locate;
use plan::{ProcessorId, TaskId};
use plan_index::user_table::users::build;
use rig::start::{no_messages, no_tables, start_board};
use rules::channel::Hint;

// How much of the output is filled, whether every step fitted, and whether the rig came to rest.
#[derive(Clone, Copy)]
pub struct Chosen {
    pub filled: usize,
    pub whole: bool,
    pub rest: bool,
}

// The steps chosen from the start of an accepted plan, by what is derived of it. The birth of task 1 at desk 1 sets pointers; the
// other tables have nothing yet.
pub fn choose<'a>(
    count: u8,
    codes: &'a [u32; 4096],
    numbers: &'a [u8; 4096],
    senders: &'a [u8; 129],
    receivers: &'a [u8; 129],
    parents: &'a [u8; 129],
    processors: u8,
    out: &'a mut [u8],
) -> Chosen
    requires { Begun processors (facts count codes.now numbers.now senders.now receivers.now parents.now) }
    ensures { ChosenOf processors
        (facts count codes.now numbers.now senders.now receivers.now parents.now)
        out.old result out.new }
{
    let mut users = [0u8; 1024];
    build(senders, receivers, parents, &mut users);
    let tables = no_tables();
    let mut hintprocessors = tables.hintprocessors;
    let mut hintmoves = tables.hintmoves;
    let mut heldprocessors = tables.heldprocessors;
    let mut heldnumbers = tables.heldnumbers;
    let mut notes = tables.notes;
    let mut board = [0u64; 1094];
    start_board(&mut board);
    let one = ProcessorId(1);
    let born = Hint {
        processor: one,
        moves: 1,
    };
    locate(
        &users,
        &mut hintprocessors,
        &mut hintmoves,
        TaskId(1),
        one,
        born,
    );
    let size = Size {
        tasks: count,
        processors,
        used: 0,
    };
    let network = no_messages();
    let mut progress = [0usize; 2];
    let rest = call_desks(
        codes,
        numbers,
        &users,
        &mut hintprocessors,
        &mut hintmoves,
        &mut heldprocessors,
        &mut heldnumbers,
        &mut notes,
        &mut board,
        size,
        network,
        out,
        &mut progress,
    );
    Chosen {
        filled: progress[0],
        whole: progress[1] == 0,
        rest,
    }
}
