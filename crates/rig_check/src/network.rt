// The letters in the mail, within the limits of refusal 9. A number of desks is n, a number of tasks m.
ghost use Rattle.std.specs.Prelude.{◌≡◌};
ghost use Rattle.rules.specs.Numbers.{task_number_ok, channel_number_ok};
ghost use Rattle.rules.specs.Sound.{known_ok, made_ok, message_ok, network_ok};

use crate::limits::{pair_ok, processor_ok};
use plan::{ChannelId, TaskId};
use rules::channel::{Hint, Offer};
use rules::message::{Message, Network};

fn channel_ok(c: ChannelId) -> bool
    ensures { result ≡ channel_number_ok c }
{
    1 <= c.0 && c.0 <= 128
}

fn task_ok(m: u8, t: TaskId) -> bool
    ensures { result ≡ task_number_ok m t }
{
    1 <= t.0 && t.0 <= m
}

// The pointer of a letter.
fn known_ok(n: u8, h: Hint) -> bool
    ensures { result ≡ known_ok n h }
{
    pair_ok(n, 9999, h.processor, h.moves as usize)
}

// The offer of a letter.
fn made_ok(n: u8, o: Offer) -> bool
    ensures { result ≡ made_ok n o }
{
    pair_ok(n, 64, o.processor, o.number as usize)
}

// A letter in a rig of n desks and m tasks.
#[tactic(auto, unfolding(rules::specs::Sound::message_ok))]
pub fn message_ok(n: u8, m: u8, x: Message) -> bool
    ensures { result ≡ message_ok n m x }
{
    match x {
        Message::Empty => false,
        Message::Offered(c, o, h) => channel_ok(c) && made_ok(n, o) && known_ok(n, h),
        Message::Advert(c, d, from) => channel_ok(c) && processor_ok(n, d) && processor_ok(n, from),
        Message::ReadyToReceive(c, d, h) => channel_ok(c) && processor_ok(n, d) && known_ok(n, h),
        Message::Data(c, d, _) => channel_ok(c) && processor_ok(n, d),
        Message::Terminated(h, t) => known_ok(n, h) && task_ok(m, t),
        Message::Migration(d, t) => processor_ok(n, d) && task_ok(m, t),
    }
}

// The mail: every slot in use holds a letter.
pub fn network_ok(n: u8, m: u8, x: Network) -> bool
    ensures { result ≡ network_ok n m x }
{
    x.used <= 256
        && x.slots[..x.used]
            .iter()
            .all(|s| message_ok(n, m, s.message))
}
