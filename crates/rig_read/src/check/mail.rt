// The slots of the mail hold letters that 9 does not refuse, as they are written, and behind them zeros.
ghost use Rattle.std.specs.Prelude.{◌≡◌, length};
ghost use Rattle.image.specs.Numbers.{number_at};
ghost use Rattle.rig_read.specs.Passing.{mail_passes};

use crate::check::slots::slot_ok;
use crate::check::zeros::zeros_at;
use crate::numbers::number8;

// Each slot, of so many letters in use, in a rig of n desks and m tasks.
pub fn mail_ok(rig: &[u8], n: u8, m: u8, used: usize) -> bool
    requires { (length rig.now ≡ 34120) × (used ≡ number_at 4 rig.now 8) }
    ensures { result ≡ mail_passes n m rig.now }
{
    if 256 < used {
        return false;
    }
    for k in 0..used {
        let v = number8(rig, 30024 + 16 * k);
        let w = number8(rig, 30032 + 16 * k);
        if !slot_ok(n, m, v, w) {
            return false;
        }
    }
    zeros_at(rig, 30024 + 16 * used, 4096 - 16 * used)
}
