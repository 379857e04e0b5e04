// Whether a live rig is at rest, and how many letters are in its mail.
ghost use Rattle.std.specs.Prelude.{◌≡◌};
ghost use Rattle.image.specs.Live.{rest_answer};

use live_rig::rest::rest_of;

// 9, or 256 where the rig is at rest and 65,536 times the letters in the mail.
#[unsafe(no_mangle)]
pub extern "C" fn mortarsedge_rest(rig: &[u8]) -> u64
    ensures { result ≡ rest_answer rig.now }
{
    if rig.len() < 34120 {
        return 9;
    }
    rest_of(&rig[..34120])
}
