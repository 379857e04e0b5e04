// The two numbers of a letter.
ghost use Rattle.std.specs.Prelude.{◌≡◌, get_or};
ghost use Rattle.image.specs.Letters.{letter_word, letter_numbers};

use board::packing::word_number;
use plan::{ChannelId, ProcessorId, TaskId};
use rules::channel::{Hint, Offer};
use rules::message::Message;

// A first number, by its fields.
fn letter_word(kind: u8, number: u8, to: u8, second: u8, offer: u8, moves: u16) -> u64
    ensures { result ≡ letter_word kind number to second offer moves }
{
    kind as u64
        + 256 * (number as u64)
        + 65536 * (to as u64)
        + 16777216 * (second as u64)
        + 4294967296 * (offer as u64)
        + 281474976710656 * (moves as u64)
}

// Of an offer letter.
fn offer_word(c: ChannelId, o: Offer, h: Hint) -> u64
    ensures { result ≡ letter_word 1 c.0 h.processor.0 o.processor.0 o.number h.moves }
{
    let to = h.processor;
    let from = o.processor;
    letter_word(1, c.0, to.0, from.0, o.number, h.moves)
}

// Of a call.
fn call_word(c: ChannelId, d: ProcessorId, h: Hint) -> u64
    ensures { result ≡ letter_word 3 c.0 d.0 h.processor.0 0 h.moves }
{
    let from = h.processor;
    letter_word(3, c.0, d.0, from.0, 0, h.moves)
}

// Of an ended letter.
fn ended_word(h: Hint, t: TaskId) -> u64
    ensures { result ≡ letter_word 5 t.0 h.processor.0 0 0 h.moves }
{
    let to = h.processor;
    letter_word(5, t.0, to.0, 0, 0, h.moves)
}

// The first number of a letter: all but its word.
pub fn first_number(m: Message) -> u64
    ensures { result ≡ get_or (letter_numbers m) 0 0 }
{
    match m {
        Message::Empty => 0,
        Message::Offered(c, o, h) => offer_word(c, o, h),
        Message::Advert(c, d, from) => letter_word(2, c.0, d.0, from.0, 0, 0),
        Message::ReadyToReceive(c, d, h) => call_word(c, d, h),
        Message::Data(c, d, _) => letter_word(4, c.0, d.0, 0, 0, 0),
        Message::Terminated(h, t) => ended_word(h, t),
        Message::Migration(d, t) => letter_word(6, t.0, d.0, 0, 0, 0),
    }
}

// The second number of a letter: its word.
pub fn second_number(m: Message) -> u64
    ensures { result ≡ get_or (letter_numbers m) 1 0 }
{
    match m {
        Message::Empty => 0,
        Message::Offered(_, _, _) => 0,
        Message::Advert(_, _, _) => 0,
        Message::ReadyToReceive(_, _, _) => 0,
        Message::Data(_, _, w) => word_number(w),
        Message::Terminated(_, _) => 0,
        Message::Migration(_, _) => 0,
    }
}
