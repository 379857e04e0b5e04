// A letter, read from its two numbers.
ghost use Rattle.std.specs.Prelude.{◌≡◌, ◌%◌};
ghost use Rattle.board.specs.packing.Packed.{word_of};
ghost use Rattle.image.specs.Letters.{letter_of};

use plan::{ChannelId, ProcessorId, TaskId, Word};
use rules::channel::{Hint, Offer};
use rules::message::Message;

// The lowest eight bits.
fn low8(v: u64) -> u8
    ensures { result ≡ v % 256 }
{
    (v % 256) as u8
}

// The lowest sixteen bits.
fn low16(v: u64) -> u16
    ensures { result ≡ v % 65536 }
{
    (v % 65536) as u16
}

// A word, read from its number.
fn word_of(v: u64) -> Word
    ensures { result ≡ word_of v }
{
    Word(
        low16(v),
        low16(v / 65536),
        low16(v / 4294967296),
        low16(v / 281474976710656),
    )
}

// The letter of two numbers; an unknown kind is no letter.
pub fn letter_of(v: u64, w: u64) -> Message
    ensures { result ≡ letter_of v w }
{
    let kind = low8(v);
    let number = low8(v / 256);
    let to = ProcessorId(low8(v / 65536));
    let second = ProcessorId(low8(v / 16777216));
    let moves = low16(v / 281474976710656);
    match kind {
        1 => {
            let o = Offer {
                processor: second,
                number: low8(v / 4294967296),
            };
            let h = Hint {
                processor: to,
                moves,
            };
            Message::Offered(ChannelId(number), o, h)
        }
        2 => Message::Advert(ChannelId(number), to, second),
        3 => {
            let h = Hint {
                processor: second,
                moves,
            };
            Message::ReadyToReceive(ChannelId(number), to, h)
        }
        4 => {
            let word = word_of(w);
            Message::Data(ChannelId(number), to, word)
        }
        5 => {
            let h = Hint {
                processor: to,
                moves,
            };
            Message::Terminated(h, TaskId(number))
        }
        6 => Message::Migration(to, TaskId(number)),
        _ => Message::Empty,
    }
}
