// Deliver: an offer letter and an advert, each opened by `let .. else`.
mod rule;

ghost use Rattle.std.specs.Prelude.{◌≡◌, ◌<◌};
ghost use Rattle.channel_rules.specs.offers.Offers.{on_offer, on_advert};

use crate::outcomes;
use rules::message::Message;
use rules::rule::{Outcome, Site};

// An offer letter.
pub fn offer(x: Site, m: Message) -> Outcome
    requires { x.cell.channel.granted < 255 }
    ensures { result ≡ on_offer x m }
{
    let Message::Offered(c, o, h) = m else {
        return outcomes::untouched(x);
    };
    rule::offer_rule(x, c, o, h)
}

// An advert.
pub fn advert(x: Site, m: Message) -> Outcome
    requires { x.cell.channel.granted < 255 }
    ensures { result ≡ on_advert x m }
{
    let Message::Advert(c, d, from) = m else {
        return outcomes::untouched(x);
    };
    rule::advert_rule(x, c, d, from)
}
