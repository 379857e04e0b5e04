// The earliest letter addressed to a desk, in the bytes of a rig.
ghost use Rattle.std.specs.Prelude.{true, ◌≡◌, ◌≤◌, length};
ghost use Rattle.rules.specs.Networks.{messages};
ghost use Rattle.rules.specs.Dispatch.{earliest};
ghost use Rattle.image.specs.Numbers.{number_at};
ghost use Rattle.image.specs.Image.{rig_size, network_in, is_image};

use plan::ProcessorId;

// The position from 1 of the earliest letter for desk d in a rig's bytes, or 0 where there is none.
pub fn earliest_in(rig: &[u8], used: usize, d: ProcessorId) -> u16
    requires { (length rig.now ≡ rig_size) × (is_image rig.now ≡ true) × (used ≡ number_at 4 rig.now 8) × (used ≤ 256) }
    ensures { result ≡ earliest d (messages (network_in rig.now)) }
{
    let desk = d.0;
    let mut k: usize = 0;
    while k < used {
        let to = rig[30026 + 16 * k];
        if to == desk {
            return (k + 1) as u16;
        }
        k += 1;
    }
    0
}
