// What a call and a word letter do at their channel's site.
ghost use Rattle.std.specs.Prelude.{◌&&◌, ◌≡◌};
ghost use Rattle.rules.specs.Calls.{call_rule, data_rule};
ghost use Rattle.rules.specs.Tasks.{is_at};

use crate::outcomes;
use plan::{ChannelId, ProcessorId, Word};
use rules::channel::Hint;
use rules::message::Message;
use rules::rule::{Outcome, Posting, Site};

// The sender is at d, and waits.
fn sends_at(x: Site, d: ProcessorId) -> bool
    ensures { result ≡ x.sending && is_at d x.sender }
{
    x.sending && task_rules::state::is_at(x.sender, d)
}

// The receiver is at d, and waits for a word that it has called for.
fn awaits_at(x: Site, d: ProcessorId) -> bool
    ensures { result ≡ is_at d x.receiver && (x.receiving && x.cell.channel.awaiting) }
{
    task_rules::state::is_at(x.receiver, d) && x.receiving && x.cell.channel.awaiting
}

// A call to the sender at d; h is where the receiver is.
#[tactic(auto, unfolding(rules::specs::Calls::call_rule))]
pub fn call_rule(x: Site, c: ChannelId, d: ProcessorId, h: Hint) -> Outcome
    ensures { result ≡ call_rule x c d h }
{
    if !sends_at(x, d) {
        return outcomes::untouched(x);
    }
    let hint = cell_rules::order::newer(x.cell.entry.hint, h);
    let known = cell_rules::fields::with_hint(x.cell, hint);
    let message = Message::Data(c, h.processor, x.sender.word);
    Outcome {
        sender: task_rules::change::readied(x.sender),
        ..outcomes::kept(x, known, Posting::Single(message))
    }
}

// A word letter to the receiver at d.
#[tactic(auto, unfolding(rules::specs::Calls::data_rule))]
pub fn data_rule(x: Site, c: ChannelId, d: ProcessorId, w: Word) -> Outcome
    ensures { result ≡ data_rule x c d w }
{
    if !awaits_at(x, d) {
        return outcomes::untouched(x);
    }
    let cleared = cell_rules::change::cleared(x.cell);
    Outcome {
        receiver: task_rules::change::taking(x.receiver, w),
        received: Some((c, w)),
        ..outcomes::kept(x, cleared, Posting::Nothing)
    }
}
