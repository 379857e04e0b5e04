// Deliver: a call and a word letter, each opened by `let .. else`.
mod calls;

ghost use Rattle.std.specs.Prelude.{◌≡◌};
ghost use Rattle.channel_rules.specs.messages.Messages.{on_call, on_data};

use crate::outcomes;
use rules::message::Message;
use rules::rule::{Outcome, Site};

// A call.
pub fn call(x: Site, m: Message) -> Outcome
    ensures { result ≡ on_call x m }
{
    let Message::ReadyToReceive(c, d, h) = m else {
        return outcomes::untouched(x);
    };
    calls::call_rule(x, c, d, h)
}

// A word letter.
pub fn data(x: Site, m: Message) -> Outcome
    ensures { result ≡ on_data x m }
{
    let Message::Data(c, d, w) = m else {
        return outcomes::untouched(x);
    };
    calls::data_rule(x, c, d, w)
}
