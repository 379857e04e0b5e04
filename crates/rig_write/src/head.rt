// What never changes in the bytes of a rig: the version, the length of the plan file, desks, the plan file.
ghost use Rattle.std.specs.Prelude.{◌≡◌, ◌≤◌, length};
ghost use Rattle.rig_write.specs.Head.{head_written};

use crate::numbers::{put_bytes, put_zeros, put2, put4};

// The number of the version is that of the bytes of RIG1; a number of desks of two bytes has the zero byte behind it.
pub fn write_head(rig: &mut [u8], processors: u8, plan: &[u8])
    requires { (length rig.old ≡ 34120) × (length plan.now ≤ 16644) }
    ensures { rig.new ≡ head_written rig.old processors plan.now }
{
    let n = plan.len();
    put4(rig, 0, 826755410);
    put4(rig, 4, n as u64);
    put2(rig, 12, processors as u16);
    put_bytes(rig, 20, plan);
    put_zeros(rig, 20 + n, 16644 - n);
}
