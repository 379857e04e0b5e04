// What the types of numbers tell of them: each fits its field.
ghost use Rattle.std.specs.Prelude.{◌<◌};
ghost use Rattle.image_laws.specs.Held.{top8, top16, top64, AllBelow, HintFits, OfferFits, WordFits, LetterFits, PostingFits};

use plan::Word;
use rules::channel::{Hint, Offer};
use rules::message::Message;
use rules::rule::Posting;

// Bytes.
pub fn bytes_fit(xs: &[u8]) -> bool
    ensures { AllBelow top8 xs.now }
{
    base::both(true, true)
}

// Numbers of 16 bits.
pub fn counts_fit(xs: &[u16]) -> bool
    ensures { AllBelow top16 xs.now }
{
    base::both(true, true)
}

// Numbers of 64 bits.
pub fn numbers_fit(xs: &[u64]) -> bool
    ensures { AllBelow top64 xs.now }
{
    base::both(true, true)
}

// One byte.
fn byte_fits(x: u8) -> bool
    ensures { x < top8 }
{
    true
}

// One number of 16 bits.
fn count_fits(x: u16) -> bool
    ensures { x < top16 }
{
    true
}

// A pointer.
fn hint_fits(h: Hint) -> bool
    ensures { HintFits h }
{
    let d = h.processor;
    let to = byte_fits(d.0);
    base::both(to, count_fits(h.moves))
}

// An offer.
fn offer_fits(o: Offer) -> bool
    ensures { OfferFits o }
{
    let d = o.processor;
    let from = byte_fits(d.0);
    base::both(from, byte_fits(o.number))
}

// A word.
fn word_fits(w: Word) -> bool
    ensures { WordFits w }
{
    let low = base::both(count_fits(w.0), count_fits(w.1));
    let high = base::both(count_fits(w.2), count_fits(w.3));
    base::both(low, high)
}

// A letter.
fn letter_fits(m: Message) -> bool
    ensures { LetterFits m }
{
    match m {
        Message::Empty => true,
        Message::Offered(c, o, h) => {
            let numbers = base::both(offer_fits(o), hint_fits(h));
            base::both(byte_fits(c.0), numbers)
        }
        Message::Advert(c, d, from) => {
            let desks = base::both(byte_fits(d.0), byte_fits(from.0));
            base::both(byte_fits(c.0), desks)
        }
        Message::ReadyToReceive(c, d, h) => {
            let desks = base::both(byte_fits(d.0), hint_fits(h));
            base::both(byte_fits(c.0), desks)
        }
        Message::Data(c, d, w) => {
            let rest = base::both(byte_fits(d.0), word_fits(w));
            base::both(byte_fits(c.0), rest)
        }
        Message::Terminated(h, t) => base::both(hint_fits(h), byte_fits(t.0)),
        Message::Migration(d, t) => base::both(byte_fits(d.0), byte_fits(t.0)),
    }
}

// What is posted.
pub fn posting_fits(x: Posting) -> bool
    ensures { PostingFits x }
{
    match x {
        Posting::Nothing => true,
        Posting::Single(m) => letter_fits(m),
        Posting::Adverts(c, d) => base::both(byte_fits(c.0), byte_fits(d.0)),
    }
}
