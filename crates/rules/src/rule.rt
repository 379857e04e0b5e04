// What a rule takes and gives back: a rule is a function of what it may touch.
use crate::channel::Cell;
use crate::message::Message;
use crate::system::ParentEntry;
use crate::task::Task;
use plan::{ChannelId, ProcessorId, Word};

// What the rules about one channel at one desk see.
#[derive(Clone, Copy)]
pub struct Site {
    // the channel's sending and receiving task; where there is none, a task that is nowhere
    pub sender: Task,
    pub receiver: Task,
    // the sender is sending on this channel, the receiver is receiving on it
    pub sending: bool,
    pub receiving: bool,
    pub cell: Cell,
}

// The letters that a rule posts.
#[derive(Clone, Copy)]
pub enum Posting {
    Nothing,
    Single(Message),
    // an advert of a channel from a desk to every other desk
    Adverts(ChannelId, ProcessorId),
}

// What such a rule leaves behind, and the word that was received, if one was, with its channel.
#[derive(Clone, Copy)]
pub struct Outcome {
    pub sender: Task,
    pub receiver: Task,
    pub cell: Cell,
    pub posting: Posting,
    pub received: Option<(ChannelId, Word)>,
}

// What a finish leaves behind: the task, its parent, what the task's desk keeps for the parent, the letter.
#[derive(Clone, Copy)]
pub struct Finished {
    pub task: Task,
    pub parent: Task,
    pub entry: ParentEntry,
    pub posting: Posting,
}

// What an ended letter leaves behind: the parent, what the letter's desk keeps for it, the letter where it is forwarded.
#[derive(Clone, Copy)]
pub struct Ended {
    pub parent: Task,
    pub entry: ParentEntry,
    pub posting: Posting,
}
