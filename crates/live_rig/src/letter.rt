// The letter that a step delivers.
ghost use Rattle.std.specs.Prelude.{◌≡◌, ◌≢◌, ◌≤◌, length};
ghost use Rattle.rules.specs.Networks.{message_at};
ghost use Rattle.image.specs.Image.{rig_size, network_in};

use rig_read::parts::letter_in;
use rules::message::Message;

// The letter at position p of a rig's mail, from 1; none at 0.
pub fn letter_at(rig: &[u8], p: usize) -> Message
    requires { (length rig.now ≡ rig_size) × (p ≤ 256) }
    ensures { p ≢ 0 → result ≡ message_at (network_in rig.now) p }
{
    if p == 0 {
        return Message::Empty;
    }
    letter_in(rig, p)
}
