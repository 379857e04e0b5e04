// Zeros in bytes: every byte is looked at, and the loop does not stop early, so that many are looked at at once.
ghost use Rattle.std.specs.Prelude.{◌≡◌, ◌+◌, ◌≤◌, length};
ghost use Rattle.rig_read.specs.Passing.{zeros_at};

// So many zeros from a place on.
pub fn zeros_at(b: &[u8], first: usize, count: usize) -> bool
    requires { first + count ≤ length b.now }
    ensures { result ≡ zeros_at b.now first count }
{
    let mut any: u8 = 0;
    for k in 0..count {
        any |= b[first + k];
    }
    any == 0
}
