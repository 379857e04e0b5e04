// The earliest letter addressed to a desk.
ghost use Rattle.std.specs.Prelude.{◌≡◌, ◌≤◌};
ghost use Rattle.rules.specs.Networks.{messages};
ghost use Rattle.rules.specs.Dispatch.{addressee, earliest};
ghost use Rattle.dispatch.specs.Letters.{is_for};

use plan::ProcessorId;
use rules::message::{Message, Network};

// The desk that a letter is addressed to.
fn addressee(m: Message) -> ProcessorId
    ensures { result ≡ addressee m }
{
    match m {
        Message::Empty => ProcessorId(0),
        Message::Offered(_, _, h) => h.processor,
        Message::Advert(_, d, _) => d,
        Message::ReadyToReceive(_, d, _) => d,
        Message::Data(_, d, _) => d,
        Message::Terminated(h, _) => h.processor,
        Message::Migration(d, _) => d,
    }
}

// The letter is addressed to desk d.
pub fn is_for(m: Message, d: ProcessorId) -> bool
    ensures { result ≡ is_for d m }
{
    addressee(m) == d
}

// The position from 1 of the earliest letter for desk d, or 0 where there is none.
pub fn earliest(n: Network, d: ProcessorId) -> u16
    requires { n.used ≤ 256 }
    ensures { result ≡ earliest d (messages n) }
{
    for k in 0..n.used {
        if is_for(n.slots[k].message, d) {
            return (k + 1) as u16;
        }
    }
    0
}
