// A desk's number, and a number that stands beside it, within the limits of refusal 9: of a pointer the
// move count, of an offer its number.
ghost use Rattle.std.specs.Prelude.{◌≡◌};
ghost use Rattle.rules.specs.Numbers.{processor_ok};
ghost use Rattle.rig_check.specs.limits.Pairs.{pair_ok, entry_ok};

use plan::ProcessorId;

// A desk of a rig of n desks.
pub fn processor_ok(n: u8, d: ProcessorId) -> bool
    ensures { result ≡ processor_ok n d }
{
    1 <= d.0 && d.0 <= n
}

// Such a desk with a number from 1 to the limit.
pub fn pair_ok(n: u8, limit: usize, d: ProcessorId, k: usize) -> bool
    ensures { result ≡ pair_ok n limit d k }
{
    processor_ok(n, d) && 1 <= k && k <= limit
}

// Such a desk and number, or neither.
pub fn entry_ok(n: u8, limit: usize, d: ProcessorId, k: usize) -> bool
    ensures { result ≡ entry_ok n limit d k }
{
    if d.0 == 0 {
        k == 0
    } else {
        pair_ok(n, limit, d, k)
    }
}
