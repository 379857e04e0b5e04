// The rig.
use crate::channel::Hint;
use crate::message::Network;
use crate::task::Task;
use plan::Plan;

// What each desk keeps for each channel: "six desks by 128 channels, 768 entries each". The entry of desk d and channel c is at
// 128 (d - 1) + (c - 1).
#[derive(Clone, Copy)]
pub struct Tables {
    // pointers: desk and count
    pub hintprocessors: [u8; 768],
    pub hintmoves: [u16; 768],
    // held offers: the sender's desk and the number
    pub heldprocessors: [u8; 768],
    pub heldnumbers: [u8; 768],
    // noted adverts: the sender's desk
    pub notes: [u8; 768],
}

// What each channel keeps itself, of channel c at c - 1.
#[derive(Clone, Copy)]
pub struct Channels {
    // the number called
    pub granted: [u8; 128],
    // the mark that the receiver has called
    pub awaiting: [bool; 128],
    // carried offers: the sender's desk and the number
    pub carriedprocessors: [u8; 128],
    pub carriednumbers: [u8; 128],
    // travelling pointers: desk and count
    pub travellingprocessors: [u8; 128],
    pub travellingmoves: [u16; 128],
}

// What a rig keeps for channels: both.
#[derive(Clone, Copy)]
pub struct Store {
    pub tables: Tables,
    pub channels: Channels,
}

// What each desk keeps for each parent: six desks by 64 tasks, 384 entries each. The entry of desk d and task t is at
// 64 (d - 1) + (t - 1).
#[derive(Clone, Copy)]
pub struct Parents {
    // pointers: desk and count
    pub hintprocessors: [u8; 384],
    pub hintmoves: [u16; 384],
    // held children: bit t - 1 for task t
    pub held: [u64; 384],
}

// One such entry.
#[derive(Clone, Copy)]
pub struct ParentEntry {
    pub hint: Hint,
    pub held: u64,
}

// The tasks: the record of task t at t - 1; and for each of six desks "the ready tasks of a desk as a 64-bit set", desk d's at d - 1,
// bit t - 1 for task t.
#[derive(Clone, Copy)]
pub struct TaskTable {
    pub records: [Task; 64],
    pub ready: [u64; 6],
}

// The rig: how many desks, the plan, the tasks, the tables, the channels, the parents, the mail; and for each of six desks "the last
// one chosen" by its dispatcher, a task's number or 0, desk d's at d - 1.
#[derive(Clone, Copy)]
pub struct System {
    pub processors: u8,
    pub plan: Plan,
    pub tasks: TaskTable,
    pub tables: Tables,
    pub channels: Channels,
    pub parents: Parents,
    pub network: Network,
    pub chosen: [u8; 6],
}
