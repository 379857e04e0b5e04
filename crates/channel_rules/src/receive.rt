// A receive on a channel.
ghost use Rattle.std.specs.Prelude.{◌≡◌, ◌<◌};
ghost use Rattle.channel_rules.specs.Tests.{sends_here, advert_stands};
ghost use Rattle.rules.specs.Cells.{granting};
ghost use Rattle.rules.specs.Receive.{call_to, receive_passes, receive_waits, receive_rule};

use crate::outcomes;
use plan::{ChannelId, ProcessorId};
use rules::channel::Cell;
use rules::rule::{Outcome, Posting, Site};
use rules::task::TaskState;

// The word passes directly.
#[tactic(auto, unfolding(rules::specs::Receive::receive_passes))]
fn receive_passes(x: Site, c: ChannelId, w: u8) -> Outcome
    requires { x.receiver.pc < 255 }
    ensures { result ≡ receive_passes x c w }
{
    let word = x.sender.word;
    let received = task_rules::change::advanced(x.receiver);
    let passed = cell_rules::change::passing(x.cell, w);
    Outcome {
        sender: task_rules::change::readied(x.sender),
        receiver: task_rules::change::taking(received, word),
        cell: cell_rules::fields::with_carried(passed, cell_rules::order::no_offer()),
        posting: Posting::Nothing,
        received: Some((c, word)),
    }
}

// The receiver waits, with this cell and this posting.
#[tactic(auto, unfolding(rules::specs::Receive::receive_waits))]
fn receive_waits(x: Site, cell: Cell, posting: Posting) -> Outcome
    requires { x.receiver.pc < 255 }
    ensures { result ≡ receive_waits x cell posting }
{
    let received = task_rules::change::advanced(x.receiver);
    Outcome {
        receiver: received.with_state(TaskState::Receiving),
        ..outcomes::kept(x, cell, posting)
    }
}

// An offer or an advert is answered: the cell is the one without it.
fn receive_answers(x: Site, cell: Cell, from: ProcessorId, c: ChannelId) -> Outcome
    requires { (x.receiver.pc < 255) × (cell.channel.granted < 255) }
    ensures { result ≡ receive_waits x (granting cell) (call_to from c x.receiver) }
{
    let call = outcomes::call_to(from, c, x.receiver);
    let granted = cell_rules::change::granting(cell);
    receive_waits(x, granted, call)
}

// The sender is at the receiver's desk, and waits.
fn sends_here(x: Site) -> bool
    ensures { result ≡ sends_here x }
{
    x.sending && task_rules::state::is_at(x.sender, x.receiver.processor)
}

// An advert is noted, and no word was called for.
fn advert_stands(x: Site) -> bool
    ensures { result ≡ advert_stands x }
{
    cell_rules::test::none_called(x.cell) && !task_rules::state::is_none(x.cell.entry.noted)
}

// A receive on c; w is the number of the sender's last executed send on c.
#[tactic(auto, unfolding(rules::specs::Receive::receive_rule))]
pub fn receive_rule(x: Site, c: ChannelId, w: u8) -> Outcome
    requires { (x.receiver.pc < 255) × (x.cell.channel.granted < 255) }
    ensures { result ≡ receive_rule x c w }
{
    let o = x.cell.channel.carried;
    let a = x.cell.entry.noted;
    if sends_here(x) {
        return receive_passes(x, c, w);
    }
    if cell_rules::test::counts(x.cell, o) {
        let removed = cell_rules::fields::with_carried(x.cell, cell_rules::order::no_offer());
        return receive_answers(x, removed, o.processor, c);
    }
    if advert_stands(x) {
        let removed = cell_rules::fields::with_noted(x.cell, ProcessorId(0));
        return receive_answers(x, removed, a, c);
    }
    receive_waits(x, x.cell, Posting::Nothing)
}
