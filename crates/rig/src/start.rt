// The rig at the start, and its parts.

ghost use Rattle.std.specs.Prelude.{◌≡◌, replicate};
ghost use Rattle.plan.specs.Programs.{programs};
ghost use Rattle.plan.specs.Refusals.{plan_answer};
ghost use Rattle.rules.specs.Starts.{started, no_messages, no_tables, no_channels};
ghost use Rattle.rules.specs.Numbers.{processor_id};
ghost use Rattle.rules.specs.Hints.{unknown};
ghost use Rattle.rules.specs.Tasks.{unborn, born};
ghost use Rattle.plan_index.specs.ends.Derived.{ends_of};
ghost use Rattle.rig.specs.start.Parts.{start_tasks, start_parents, StartsOn};

use board::sweeps::locate;
use board::{Board, point_parent, put_task};
use plan::{Plan, ProcessorId, TaskId, Word};
use plan_index::ends::Ends;
use plan_index::user_table::users::build;
use rules::channel::Hint;
use rules::message::{Message, Network, Slot};
use rules::system::{Channels, Parents, System, Tables, TaskTable};
use rules::task::{Task, TaskState};

// A task before its birth.
fn unborn() -> Task
    ensures { result ≡ unborn }
{
    Task {
        state: TaskState::Unborn,
        processor: ProcessorId(0),
        pc: 1,
        origin: cell_rules::order::unknown(),
        word: Word(0, 0, 0, 0),
        overflow: false,
        moves: 0,
        children: 0,
    }
}

// Task 1, born at desk 1; it has no parent.
fn first_task() -> Task
    ensures { result ≡ born (processor_id 1) unknown }
{
    unborn().birth(ProcessorId(1), cell_rules::order::unknown())
}

// Task 1 is born at desk 1, where it is ready; the others are unborn.
pub fn start_tasks() -> TaskTable
    ensures { result ≡ start_tasks }
{
    let mut records = [unborn(); 64];
    records[0] = first_task();
    let mut ready = [0u64; 6];
    ready[0] = 1;
    TaskTable { records, ready }
}

// The mail without a letter.
pub fn no_messages() -> Network
    ensures { result ≡ no_messages }
{
    let slot = Slot {
        message: Message::Empty,
    };
    Network {
        slots: [slot; 256],
        used: 0,
    }
}

// Nothing in the tables.
pub fn no_tables() -> Tables
    ensures { result ≡ no_tables }
{
    Tables {
        hintprocessors: [0; 768],
        hintmoves: [0; 768],
        heldprocessors: [0; 768],
        heldnumbers: [0; 768],
        notes: [0; 768],
    }
}

// Nothing is kept for the channels.
fn no_channels() -> Channels
    ensures { result ≡ no_channels }
{
    Channels {
        granted: [0; 128],
        awaiting: [false; 128],
        carriedprocessors: [0; 128],
        carriednumbers: [0; 128],
        travellingprocessors: [0; 128],
        travellingmoves: [0; 128],
    }
}

// Desk 1 points to task 1; nothing else is kept for parents.
fn start_parents() -> Parents
    ensures { result ≡ start_parents }
{
    let mut hintprocessors = [0u8; 384];
    hintprocessors[0] = 1;
    let mut hintmoves = [0u16; 384];
    hintmoves[0] = 1;
    Parents {
        hintprocessors,
        hintmoves,
        held: [0; 384],
    }
}

// The start on a board: an unborn task is at place 1, and has nothing else; task 1 is born at desk 1, which points to it.
pub fn start_board(board: &mut Board)
    requires { board.old ≡ replicate 1094 0 }
    ensures { StartsOn board.new }
{
    for k in 0..64usize {
        board[128 + 2 * k] = 65536;
    }
    put_task(board, TaskId(1), first_task());
    let h = Hint {
        processor: ProcessorId(1),
        moves: 1,
    };
    point_parent(board, ProcessorId(1), TaskId(1), h);
}

// The start of an accepted plan p on so many desks: a birth of task 1 at desk 1.
pub fn start(processors: u8, p: Plan, e: Ends) -> System
    requires { (e ≡ ends_of p) × (plan_answer (programs p) ≡ Ok tt) }
    ensures { result ≡ started processors p }
{
    let mut users = [0u8; 1024];
    build(&e.senders, &e.receivers, &e.parents, &mut users);
    let here = Hint {
        processor: ProcessorId(1),
        moves: 1,
    };
    let mut tables = no_tables();
    locate(
        &users,
        &mut tables.hintprocessors,
        &mut tables.hintmoves,
        TaskId(1),
        ProcessorId(1),
        here,
    );
    System {
        processors,
        plan: p,
        tasks: start_tasks(),
        tables,
        channels: no_channels(),
        parents: start_parents(),
        network: no_messages(),
        chosen: [0; 6],
    }
}
