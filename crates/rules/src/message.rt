// Letters, and the mail that they are in.
use crate::channel::{Hint, Offer};
use plan::{ChannelId, ProcessorId, TaskId, Word};

// A letter. Each names the desk that it goes to; that of an offer and of an ended letter is its hint's.
#[derive(Clone, Copy)]
pub enum Message {
    // no letter: what an unused slot holds; the mail is an array of structs that each hold a letter, so there is no Option
    Empty,
    // offer letter: the channel, the offer, the pointer that it follows
    Offered(ChannelId, Offer, Hint),
    // advert: the channel, where to, the sender's desk
    Advert(ChannelId, ProcessorId, ProcessorId),
    // call: the channel, where to, the receiver's desk and move count
    ReadyToReceive(ChannelId, ProcessorId, Hint),
    // word letter: the channel, where to, the word
    Data(ChannelId, ProcessorId, Word),
    // ended letter: the pointer to the parent that it follows, the child
    Terminated(Hint, TaskId),
    // mover letter: where to, the task
    Migration(ProcessorId, TaskId),
}

// One place of the mail.
#[derive(Clone, Copy)]
pub struct Slot {
    pub message: Message,
}

// The mail: "256 letters". The first `used` slots hold them in order.
#[derive(Clone, Copy)]
pub struct Network {
    pub slots: [Slot; 256],
    pub used: usize,
}
