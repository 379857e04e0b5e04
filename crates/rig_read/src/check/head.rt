// What stands in a rig's bytes beside its parts.
ghost use Rattle.std.specs.Prelude.{◌≡◌, ◌&&◌, ◌≤◌, eqb, length, get_or};
ghost use Rattle.image_laws.specs.Parts.{version_ok, zeros_behind};

use crate::check::zeros::zeros_at;

// The version, and the zero byte behind the number of desks.
pub fn head_ok(rig: &[u8]) -> bool
    requires { length rig.now ≡ 34120 }
    ensures { result ≡ version_ok rig.now && eqb (get_or rig.now 13 0) 0 }
{
    rig[0] == 82 && rig[1] == 73 && rig[2] == 71 && rig[3] == 49 && rig[13] == 0
}

// Zeros behind a plan file of n bytes.
#[tactic(auto, unfolding(image_laws::specs::Parts::zeros_behind))]
pub fn zeros_behind(rig: &[u8], n: usize) -> bool
    requires { (length rig.now ≡ 34120) × (n ≤ 16644) }
    ensures { result ≡ zeros_behind n rig.now }
{
    zeros_at(rig, 20 + n, 16644 - n)
}
