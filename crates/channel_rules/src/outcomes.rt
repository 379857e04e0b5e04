// What several rules leave behind: a call letter; both tasks as they were; nothing changed at all.
ghost use Rattle.std.specs.Prelude.{◌≡◌};
ghost use Rattle.rules.specs.Offers.{kept};
ghost use Rattle.rules.specs.Receive.{call_to};
ghost use Rattle.channel_rules.specs.outcomes.Outcomes.{untouched};

use plan::{ChannelId, ProcessorId};
use rules::channel::{Cell, Hint};
use rules::message::Message;
use rules::rule::{Outcome, Posting, Site};
use rules::task::Task;

// A call to the desk that offered, from the receiver x.
pub fn call_to(from: ProcessorId, c: ChannelId, x: Task) -> Posting
    ensures { result ≡ call_to from c x }
{
    let h = Hint {
        processor: x.processor,
        moves: x.moves,
    };
    Posting::Single(Message::ReadyToReceive(c, from, h))
}

// Both tasks stay as they are.
pub fn kept(x: Site, cell: Cell, posting: Posting) -> Outcome
    ensures { result ≡ kept x cell posting }
{
    Outcome {
        sender: x.sender,
        receiver: x.receiver,
        cell,
        posting,
        received: None,
    }
}

// The cell stays too, and no letter leaves.
pub fn untouched(x: Site) -> Outcome
    ensures { result ≡ untouched x }
{
    kept(x, x.cell, Posting::Nothing)
}
