// The answer of a plan: it is run from its start on one desk to rest, and the lines are written.
ghost use Rattle.rig_parts.specs.Facts.{facts};
ghost use Rattle.run.specs.file.Begins.{Begun};
ghost use Rattle.finish.specs.Files.{AnswerOf};

use crate::lines::emit_answer;
use crate::settle::settle;
use board::sweeps::locate;
use plan::{ProcessorId, TaskId};
use plan_index::user_table::users::build;
use rig::start::{no_tables, start_board};
use rules::channel::Hint;

// How much of the output is filled, and whether every line fitted.
#[derive(Clone, Copy)]
pub struct Answered {
    pub filled: usize,
    pub whole: bool,
}

// The answer of an accepted plan, by what is derived of it. The birth of task 1 at desk 1 sets pointers; the other tables have
// nothing yet.
pub fn answer<'a>(
    count: u8,
    codes: &'a [u32; 4096],
    numbers: &'a [u8; 4096],
    senders: &'a [u8; 129],
    receivers: &'a [u8; 129],
    parents: &'a [u8; 129],
    out: &'a mut [u8],
) -> Answered
    requires { Begun 1 (facts count codes.now numbers.now senders.now receivers.now parents.now) }
    ensures { AnswerOf
        (facts count codes.now numbers.now senders.now receivers.now parents.now)
        out.old result out.new }
{
    let mut users = [0u8; 1024];
    build(senders, receivers, parents, &mut users);
    let tables = no_tables();
    let mut hintprocessors = tables.hintprocessors;
    let mut hintmoves = tables.hintmoves;
    let mut heldprocessors = tables.heldprocessors;
    let mut heldnumbers = tables.heldnumbers;
    let mut notes = tables.notes;
    let mut board = [0u64; 1094];
    start_board(&mut board);
    let one = ProcessorId(1);
    let born = Hint {
        processor: one,
        moves: 1,
    };
    locate(
        &users,
        &mut hintprocessors,
        &mut hintmoves,
        TaskId(1),
        one,
        born,
    );
    let work = settle(
        codes,
        numbers,
        &users,
        &mut hintprocessors,
        &mut hintmoves,
        &mut heldprocessors,
        &mut heldnumbers,
        &mut notes,
        &mut board,
        count,
    );
    let mut progress = [0usize; 2];
    emit_answer(out, &mut progress, codes, &users, &board, count, work);
    Answered {
        filled: progress[0],
        whole: progress[1] == 0,
    }
}
