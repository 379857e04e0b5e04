// Bytes put at a place of the output.
ghost use Rattle.std.specs.Prelude.{◌≡◌, ◌+◌, ◌≤◌, length};
ghost use Rattle.plan.specs.Layout.{bytes16};
ghost use Rattle.plan_write.specs.output.Output.{overlay};

// A field of 16 bits, put at a place of the output.
pub fn put_word(out: &mut [u8], at: usize, n: u16)
    requires { at + 2 ≤ length out.old }
    ensures { out.new ≡ overlay out.old at (bytes16 n) }
{
    out[at] = (n % 256) as u8;
    out[at + 1] = (n / 256) as u8;
}
