// What a step received, as its record of ten bytes.
ghost use Rattle.std.specs.Prelude.{◌≡◌, ◌++◌, ◌+◌, ◌≤◌, length};
ghost use Rattle.plan.specs.Layout.{bytes16};
ghost use Rattle.plan_write.specs.output.Output.{overlay};
ghost use Rattle.image.specs.Live.{word_record};

use plan::{ChannelId, Word};
use plan_write::output::bytes::put_word;

// Five numbers of 16 bits.
fn put_numbers(out: &mut [u8], at: usize, c: u16, w: Word)
    requires { at + 10 ≤ length out.old }
    ensures { out.new ≡ overlay out.old at
        (bytes16 c ++ (bytes16 w.0 ++ (bytes16 w.1 ++ (bytes16 w.2 ++ bytes16 w.3)))) }
{
    put_word(out, at, c);
    put_word(out, at + 2, w.0);
    put_word(out, at + 4, w.1);
    put_word(out, at + 6, w.2);
    put_word(out, at + 8, w.3);
}

// The channel and the four levels of a received word, else zeros.
pub fn put_received(out: &mut [u8], at: usize, received: Option<(ChannelId, Word)>)
    requires { at + 10 ≤ length out.old }
    ensures { out.new ≡ overlay out.old at (word_record received) }
{
    match received {
        None => put_numbers(out, at, 0, Word(0, 0, 0, 0)),
        Some((c, w)) => put_numbers(out, at, c.0 as u16, w),
    }
}
