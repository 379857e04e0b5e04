// The tasks, the channels and the parents of a rig, put on a board and taken from it.
ghost use Rattle.std.specs.Prelude.{◌≡◌, ◌<◌, ◌/◌, ◌%◌, ◌+◌};
ghost use Rattle.plan.specs.Numbers.{task_id, processor_id};
ghost use Rattle.rules.specs.Systems.{read_channel, read_parent};
ghost use Rattle.board.specs.Lent.{Whole, records_on, ready_on, tasks_on, channels_on, parents_on};

use board::ready::{put_set, ready_at};
use board::{Board, channel_at, parent_at, put_channel, put_parent, put_task, task_at};
use plan::{ChannelId, ProcessorId, TaskId};
use rules::channel::{Channel, Hint, Offer};
use rules::system::{Channels, ParentEntry, Parents, TaskTable};
use rules::task::Task;

// The entry of the channel after the first k.
fn channel_of(channels: Channels, k: usize) -> Channel
    requires { k < 128 }
    ensures { result ≡ read_channel channels k }
{
    let carried = Offer {
        processor: ProcessorId(channels.carriedprocessors[k]),
        number: channels.carriednumbers[k],
    };
    let travelling = Hint {
        processor: ProcessorId(channels.travellingprocessors[k]),
        moves: channels.travellingmoves[k],
    };
    Channel {
        granted: channels.granted[k],
        awaiting: channels.awaiting[k],
        carried,
        travelling,
    }
}

// The records of the board's tasks become these.
fn put_records(board: &mut Board, records: [Task; 64])
    requires { Whole board.old }
    ensures { (Whole board.new) × (records_on board.new ≡ records) × (channels_on board.new ≡ channels_on board.old) }
{
    for k in 0..64 {
        put_task(board, TaskId(k + 1), records[k as usize]);
    }
}

// The board's sets of ready tasks become these.
fn put_sets(board: &mut Board, ready: [u64; 6])
    requires { Whole board.old }
    ensures { (Whole board.new) × (ready_on board.new ≡ ready) × (records_on board.new ≡ records_on board.old)
        × (channels_on board.new ≡ channels_on board.old) }
{
    for k in 0..6 {
        put_set(board, ProcessorId(k + 1), ready[k as usize]);
    }
}

// The board's tasks become these.
pub fn put_tasks(board: &mut Board, tasks: TaskTable)
    requires { Whole board.old }
    ensures { (Whole board.new) × (tasks_on board.new ≡ tasks) × (channels_on board.new ≡ channels_on board.old) }
{
    put_records(board, tasks.records);
    put_sets(board, tasks.ready);
}

// The board's channels become these.
pub fn put_channels(board: &mut Board, channels: Channels)
    requires { Whole board.old }
    ensures { (Whole board.new) × (channels_on board.new ≡ channels) × (tasks_on board.new ≡ tasks_on board.old) }
{
    for k in 0..128 {
        let y = channel_of(channels, k as usize);
        put_channel(board, ChannelId(k + 1), y);
    }
}

// The records of the tasks of a board.
fn records_on(board: &Board) -> [Task; 64]
    ensures { result ≡ records_on board.now }
{
    let first = task_at(board, TaskId(1));
    let mut records = [first; 64];
    for k in 0..64 {
        let x = task_at(board, TaskId(k + 1));
        records[k as usize] = x;
    }
    records
}

// The sets of ready tasks of a board.
fn sets_on(board: &Board) -> [u64; 6]
    ensures { result ≡ ready_on board.now }
{
    let mut ready = [0u64; 6];
    for k in 0..6 {
        let s = ready_at(board, ProcessorId(k + 1));
        ready[k as usize] = s;
    }
    ready
}

// The tasks of a board.
pub fn tasks_on(board: &Board) -> TaskTable
    ensures { result ≡ tasks_on board.now }
{
    TaskTable {
        records: records_on(board),
        ready: sets_on(board),
    }
}

// The channels of a board.
pub fn channels_on(board: &Board) -> Channels
    ensures { result ≡ channels_on board.now }
{
    let mut granted = [0u8; 128];
    let mut awaiting = [false; 128];
    let mut carriedprocessors = [0u8; 128];
    let mut carriednumbers = [0u8; 128];
    let mut travellingprocessors = [0u8; 128];
    let mut travellingmoves = [0u16; 128];
    for k in 0..128 {
        let y = channel_at(board, ChannelId(k + 1));
        let at = k as usize;
        granted[at] = y.granted;
        awaiting[at] = y.awaiting;
        carriedprocessors[at] = y.carried.processor.0;
        carriednumbers[at] = y.carried.number;
        travellingprocessors[at] = y.travelling.processor.0;
        travellingmoves[at] = y.travelling.moves;
    }
    Channels {
        granted,
        awaiting,
        carriedprocessors,
        carriednumbers,
        travellingprocessors,
        travellingmoves,
    }
}

// The entry for a parent after the first k.
fn parent_of(parents: Parents, k: usize) -> ParentEntry
    requires { k < 384 }
    ensures { result ≡ read_parent parents k }
{
    let hint = Hint {
        processor: ProcessorId(parents.hintprocessors[k]),
        moves: parents.hintmoves[k],
    };
    ParentEntry {
        hint,
        held: parents.held[k],
    }
}

// The desk of the entry for a parent after the first k.
fn desk_after(k: u16) -> ProcessorId
    requires { k < 384 }
    ensures { result ≡ processor_id (k / 64 + 1) }
{
    ProcessorId((k / 64 + 1) as u8)
}

// Its task.
fn task_after(k: u16) -> TaskId
    requires { k < 384 }
    ensures { result ≡ task_id (k % 64 + 1) }
{
    TaskId((k % 64 + 1) as u8)
}

// What desks keep for parents on the board becomes this.
pub fn put_parents(board: &mut Board, parents: Parents)
    requires { Whole board.old }
    ensures { (Whole board.new) × (parents_on board.new ≡ parents) × (tasks_on board.new ≡ tasks_on board.old)
        × (channels_on board.new ≡ channels_on board.old) }
{
    for k in 0..384 {
        let e = parent_of(parents, k as usize);
        put_parent(board, desk_after(k), task_after(k), e);
    }
}

// What desks keep for parents on a board.
pub fn parents_on(board: &Board) -> Parents
    ensures { result ≡ parents_on board.now }
{
    let mut hintprocessors = [0u8; 384];
    let mut hintmoves = [0u16; 384];
    let mut held = [0u64; 384];
    for k in 0..384 {
        let e = parent_at(board, desk_after(k), task_after(k));
        let at = k as usize;
        hintprocessors[at] = e.hint.processor.0;
        hintmoves[at] = e.hint.moves;
        held[at] = e.held;
    }
    Parents {
        hintprocessors,
        hintmoves,
        held,
    }
}
