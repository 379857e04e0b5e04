// Which of two offers, adverts or pointers is kept, and whether a pointer leads on; what stands for none.
ghost use Rattle.std.specs.Prelude.{◌≡◌};
ghost use Rattle.rules.specs.Cells.{larger, first_noted, unknown, no_offer, newer};
ghost use Rattle.rules.specs.Hints.{points_on};

use plan::ProcessorId;
use rules::channel::{Hint, Offer};

// The offer with the larger number; the earlier of equals.
#[tactic(auto, unfolding(rules::specs::Cells::larger))]
pub fn larger(earlier: Offer, later: Offer) -> Offer
    ensures { result ≡ larger earlier later }
{
    if earlier.number < later.number {
        later
    } else {
        earlier
    }
}

// Of two adverts the first stays.
#[tactic(auto, unfolding(rules::specs::Cells::first_noted))]
pub fn first_noted(first: ProcessorId, later: ProcessorId) -> ProcessorId
    ensures { result ≡ first_noted first later }
{
    if first.0 == 0 { later } else { first }
}

// The pointer that names nothing.
pub fn unknown() -> Hint
    ensures { result ≡ unknown }
{
    Hint {
        processor: ProcessorId(0),
        moves: 0,
    }
}

// The offer that is none.
pub fn no_offer() -> Offer
    ensures { result ≡ no_offer }
{
    Offer {
        processor: ProcessorId(0),
        number: 0,
    }
}

// The pointer with the larger count; the desk's own of equals.
#[tactic(auto, unfolding(rules::specs::Hints::newer))]
pub fn newer(own: Hint, other: Hint) -> Hint
    ensures { result ≡ newer own other }
{
    if own.moves < other.moves { other } else { own }
}

// The desk's own pointer is newer than the one that a letter came along, and names another desk than the letter's.
pub fn points_on(own: Hint, along: Hint) -> bool
    ensures { result ≡ points_on own along along.processor }
{
    own.processor != along.processor && along.moves < own.moves
}
