// What a loop that owns the mail does to it: which letter a step delivers, and what is posted, a letter or letters round by round;
// how many letters that takes.
#![tactic(auto)]

ghost use Rattle.std.specs.Prelude.{◌≡◌, ◌≤◌, ◌<◌, length};
ghost use Rattle.rules.specs.Networks.{messages_of};
ghost use Rattle.network.specs.Rounds.{is_message, rounds_of, skips_at, message_of, other_processors};
ghost use Rattle.network.specs.Positions.{position_of};

use plan::ProcessorId;
use rules::message::{Message, Slot};
use rules::rule::Posting;
use rules::step::Step;

// The position of the letter that a step delivers, of so many letters; 0 if it delivers none. The 0 is the contract's.
#[tactic(auto, unfolding(crate::specs::Positions::position_of))]
pub fn position(used: usize, s: Step) -> usize
    ensures { (result ≡ position_of used s) × (result ≤ used) }
{
    let p = s.number as usize;
    if s.kind == 2 && s.task == 0 && 1 <= p && p <= used {
        p
    } else {
        0
    }
}

// Whether a letter is posted, and nothing but that.
pub fn posts(x: Posting) -> bool
    ensures { result ≡ is_message x }
{
    matches!(x, Posting::Single(_))
}

// How many desks a posting goes by, in a rig of so many.
pub fn rounds(processors: u8, x: Posting) -> u8
    ensures { result ≡ rounds_of processors x }
{
    match x {
        Posting::Nothing => 0,
        Posting::Single(_) => 1,
        Posting::Adverts(_, _) => processors,
    }
}

// Whether nothing is posted in round j.
pub fn skips(x: Posting, j: u8) -> bool
    requires { j < 255 }
    ensures { result ≡ skips_at x j }
{
    match x {
        Posting::Nothing => false,
        Posting::Single(_) => false,
        Posting::Adverts(_, d) => j + 1 == d.0,
    }
}

// What is posted in round j.
pub fn message(x: Posting, j: u8) -> Slot
    requires { j < 255 }
    ensures { result.message ≡ message_of x j }
{
    let message = match x {
        Posting::Nothing => Message::Empty,
        Posting::Single(m) => m,
        Posting::Adverts(c, d) => Message::Advert(c, ProcessorId(j + 1), d),
    };
    Slot { message }
}

// How many letters a rule posts in a rig of so many desks.
pub fn messages_needed(processors: u8, p: Posting) -> usize
    ensures { result ≡ length (messages_of processors p) }
{
    match p {
        Posting::Nothing => 0,
        Posting::Single(_) => 1,
        Posting::Adverts(_, d) => other_processors(processors, d),
    }
}

// How many desks are other ones than d.
fn other_processors(processors: u8, d: ProcessorId) -> usize
    ensures { result ≡ other_processors processors d }
{
    let all = processors as usize;
    if 1 <= d.0 && d.0 <= processors {
        all - 1
    } else {
        all
    }
}
