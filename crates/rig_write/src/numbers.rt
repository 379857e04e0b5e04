// Numbers, bytes and zeros put at a place of lent bytes, little-endian.
ghost use Rattle.std.specs.Prelude.{◌≡◌, ◌+◌, ◌≤◌, length, replicate};
ghost use Rattle.plan_write.specs.output.Output.{overlay};
ghost use Rattle.image.specs.Numbers.{number_bytes};

// A number of 2 bytes.
pub fn put2(b: &mut [u8], at: usize, n: u16)
    requires { at + 2 ≤ length b.old }
    ensures { b.new ≡ overlay b.old at (number_bytes 2 n) }
{
    put_bytes(b, at, &n.to_le_bytes());
}

// The lowest 4 bytes of a number.
pub fn put4(b: &mut [u8], at: usize, m: u64)
    requires { at + 4 ≤ length b.old }
    ensures { b.new ≡ overlay b.old at (number_bytes 4 m) }
{
    put_bytes(b, at, &m.to_le_bytes()[..4]);
}

// A number of 8 bytes.
pub fn put8(b: &mut [u8], at: usize, v: u64)
    requires { at + 8 ≤ length b.old }
    ensures { b.new ≡ overlay b.old at (number_bytes 8 v) }
{
    put_bytes(b, at, &v.to_le_bytes());
}

// Bytes as they are.
pub fn put_bytes(b: &mut [u8], at: usize, xs: &[u8])
    requires { at + length xs.now ≤ length b.old }
    ensures { b.new ≡ overlay b.old at xs.now }
{
    for k in 0..xs.len() {
        b[at + k] = xs[k];
    }
}

// So many zeros.
pub fn put_zeros(b: &mut [u8], at: usize, n: usize)
    requires { at + n ≤ length b.old }
    ensures { b.new ≡ overlay b.old at (replicate n 0) }
{
    b[at..at + n].fill(0);
}
