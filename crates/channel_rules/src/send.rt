// A send on a channel.
ghost use Rattle.std.specs.Prelude.{◌≡◌, ◌<◌};
ghost use Rattle.channel_rules.specs.Tests.{receives_here};
ghost use Rattle.rules.specs.Send.{send_passes, send_waits, send_rule};

use crate::outcomes;
use plan::ChannelId;
use rules::channel::{Cell, Offer};
use rules::message::Message;
use rules::rule::{Outcome, Posting, Site};
use rules::task::TaskState;

// The word passes directly.
#[tactic(auto, unfolding(rules::specs::Send::send_passes))]
fn send_passes(x: Site, c: ChannelId, w: u8) -> Outcome
    requires { x.sender.pc < 255 }
    ensures { result ≡ send_passes x c w }
{
    let word = x.sender.word;
    Outcome {
        sender: task_rules::change::advanced(x.sender),
        receiver: task_rules::change::taking(x.receiver, word),
        cell: cell_rules::change::passing(x.cell, w),
        posting: Posting::Nothing,
        received: Some((c, word)),
    }
}

// The sender waits, with this cell and this posting.
#[tactic(auto, unfolding(rules::specs::Send::send_waits))]
fn send_waits(x: Site, cell: Cell, posting: Posting) -> Outcome
    requires { x.sender.pc < 255 }
    ensures { result ≡ send_waits x cell posting }
{
    let sent = task_rules::change::advanced(x.sender);
    Outcome {
        sender: sent.with_state(TaskState::Sending),
        ..outcomes::kept(x, cell, posting)
    }
}

// The receiver is at the sender's desk, and waits for a word that it has not called for.
fn receives_here(x: Site) -> bool
    ensures { result ≡ receives_here x }
{
    let here = task_rules::state::is_at(x.receiver, x.sender.processor);
    here && x.receiving && !x.cell.channel.awaiting
}

// The sender's w-th send on c: the word passes, or the offer is carried, advertised, held or sent in a letter.
#[tactic(auto, unfolding(rules::specs::Send::send_rule))]
pub fn send_rule(x: Site, c: ChannelId, w: u8) -> Outcome
    requires { x.sender.pc < 255 }
    ensures { result ≡ send_rule x c w }
{
    let d = x.sender.processor;
    let h = x.cell.entry.hint;
    let o = Offer {
        processor: d,
        number: w,
    };
    if receives_here(x) {
        return send_passes(x, c, w);
    }
    if task_rules::state::is_at(x.receiver, d) {
        let carried = cell_rules::change::carrying(x.cell, o);
        return send_waits(x, carried, Posting::Nothing);
    }
    if task_rules::state::is_none(h.processor) {
        return send_waits(x, x.cell, Posting::Adverts(c, d));
    }
    if h.processor == d {
        let held = cell_rules::change::holding(x.cell, o);
        return send_waits(x, held, Posting::Nothing);
    }
    send_waits(x, x.cell, Posting::Single(Message::Offered(c, o, h)))
}
