// What an offer and an advert do at their channel's site.
ghost use Rattle.std.specs.Prelude.{◌≡◌, false, not, ◌&&◌, ◌<◌};
ghost use Rattle.rules.specs.Tasks.{is_at};
ghost use Rattle.rules.specs.Cells.{granting, none_called};
ghost use Rattle.rules.specs.Receive.{call_to};
ghost use Rattle.rules.specs.Offers.{kept, offer_rule, advert_rule};

use crate::outcomes;
use plan::{ChannelId, ProcessorId};
use rules::channel::{Hint, Offer};
use rules::message::Message;
use rules::rule::{Outcome, Posting, Site};

// The receiver waits for a word that it has not called for.
fn is_uncalled(x: Site) -> bool
    ensures { result ≡ x.receiving && not x.cell.channel.awaiting }
{
    x.receiving && !x.cell.channel.awaiting
}

// The receiver is at d and waits, and no word was called for.
fn is_first_at(x: Site, d: ProcessorId) -> bool
    ensures { result ≡ is_at d x.receiver && (x.receiving && none_called x.cell) }
{
    task_rules::state::is_at(x.receiver, d) && x.receiving && cell_rules::test::none_called(x.cell)
}

// An offer or an advert is answered by a call.
fn answered(x: Site, c: ChannelId, from: ProcessorId) -> Outcome
    requires { x.cell.channel.granted < 255 }
    ensures { result ≡ kept x (granting x.cell) (call_to from c x.receiver) }
{
    let granted = cell_rules::change::granting(x.cell);
    let call = outcomes::call_to(from, c, x.receiver);
    outcomes::kept(x, granted, call)
}

// An offer where the receiver is not: forwarded or held.
#[tactic(auto, unfolding(rules::specs::Offers::offer_rule))]
fn offer_away(x: Site, c: ChannelId, o: Offer, h: Hint) -> Outcome
    requires { is_at h.processor x.receiver ≡ false }
    ensures { result ≡ offer_rule x c o h }
{
    let own = x.cell.entry.hint;
    if cell_rules::order::points_on(own, h) {
        return outcomes::kept(x, x.cell, Posting::Single(Message::Offered(c, o, own)));
    }
    let held = cell_rules::change::holding(x.cell, o);
    outcomes::kept(x, held, Posting::Nothing)
}

// An offer, at the desk that the letter's pointer names: where the receiver is, dropped, answered or carried.
#[tactic(auto, unfolding(rules::specs::Offers::offer_rule))]
pub fn offer_rule(x: Site, c: ChannelId, o: Offer, h: Hint) -> Outcome
    requires { x.cell.channel.granted < 255 }
    ensures { result ≡ offer_rule x c o h }
{
    if !task_rules::state::is_at(x.receiver, h.processor) {
        return offer_away(x, c, o, h);
    }
    if !cell_rules::test::counts(x.cell, o) {
        return outcomes::untouched(x);
    }
    if is_uncalled(x) {
        return answered(x, c, o.processor);
    }
    let carried = cell_rules::change::carrying(x.cell, o);
    outcomes::kept(x, carried, Posting::Nothing)
}

// An advert from a desk, at desk d: answered or noted.
#[tactic(auto, unfolding(rules::specs::Offers::advert_rule))]
pub fn advert_rule(x: Site, c: ChannelId, d: ProcessorId, from: ProcessorId) -> Outcome
    requires { x.cell.channel.granted < 255 }
    ensures { result ≡ advert_rule x c d from }
{
    if is_first_at(x, d) {
        return answered(x, c, from);
    }
    let noted = cell_rules::change::noting(x.cell, from);
    outcomes::kept(x, noted, Posting::Nothing)
}
