// Bytes put into a lent output.
ghost use Rattle.std.specs.Prelude.{◌++◌, ◌≡◌, ◌≤◌, length, drop};

// The bytes become the first of the output.
pub fn put_bytes<'a>(out: &'a mut [u8], bytes: &'a [u8])
    requires { length bytes.now ≤ length out.old }
    ensures { out.new ≡ bytes.now ++ drop (length bytes.now) out.old }
{
    let mut k: usize = 0;
    while k < bytes.len() {
        out[k] = bytes[k];
        k += 1;
    }
}
