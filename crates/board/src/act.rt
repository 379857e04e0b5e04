// What a step says and posts, and how large a rig is.
ghost use Rattle.std.specs.Prelude.{◌≡◌, ◌≤◌, ◌+◌, leb, length};
ghost use Rattle.rules.specs.Networks.{messages_of};
ghost use Rattle.board.specs.Acted.{refused_act, accepted_act, posted_act};

use plan::{ChannelId, Word};
use rules::rule::{Outcome, Posting};
use rules::step::StepRefusal;

// The answer, the word that was received, and what is posted.
#[derive(Clone, Copy)]
pub struct Act {
    pub answer: Result<(), StepRefusal>,
    pub received: Option<(ChannelId, Word)>,
    pub posting: Posting,
}

// How many tasks, desks and letters a rig has.
#[derive(Clone, Copy)]
pub struct Size {
    pub tasks: u8,
    pub processors: u8,
    pub used: usize,
}

pub fn refused(q: Result<(), StepRefusal>) -> Act
    ensures { result ≡ refused_act q }
{
    Act {
        answer: q,
        received: None,
        posting: Posting::Nothing,
    }
}

pub fn accepted(o: Outcome) -> Act
    ensures { result ≡ accepted_act o }
{
    Act {
        answer: Ok(()),
        received: o.received,
        posting: o.posting,
    }
}

// Accepted, no word is received, and this is posted.
pub fn posted(p: Posting) -> Act
    ensures { result ≡ posted_act p }
{
    Act {
        answer: Ok(()),
        received: None,
        posting: p,
    }
}

// Whether what a rule posts fits into the mail.
pub fn fits(n: Size, p: Posting) -> bool
    requires { n.used ≤ 256 }
    ensures { result ≡ leb (n.used + length (messages_of n.processors p)) 256 }
{
    let needed = network::messages_needed(n.processors, p);
    n.used + needed <= 256
}
