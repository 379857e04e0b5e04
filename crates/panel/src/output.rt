// Counts put into lent numbers.
ghost use Rattle.std.specs.Prelude.{◌≡◌, ◌++◌, ◌≤◌, length, drop};

// The counts become the first 27 of the lent numbers.
pub fn put_counts(out: &mut [u32], counts: [u16; 27])
    requires { 27 ≤ length out.old }
    ensures { out.new ≡ counts ++ drop 27 out.old }
{
    for k in 0..27 {
        out[k] = counts[k] as u32;
    }
}
