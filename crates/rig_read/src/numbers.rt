// Numbers in bytes, the lowest byte first.
ghost use Rattle.std.specs.Prelude.{◌≡◌, ◌+◌, ◌≤◌, length};
ghost use Rattle.image.specs.Numbers.{number_at};

// The number of 2 bytes at a place.
pub fn number2(b: &[u8], at: usize) -> u16
    requires { at + 2 ≤ length b.now }
    ensures { result ≡ number_at 2 b.now at }
{
    u16::from_le_bytes([b[at], b[at + 1]])
}

// The number of 4 bytes at a place.
pub fn number4(b: &[u8], at: usize) -> usize
    requires { at + 4 ≤ length b.now }
    ensures { result ≡ number_at 4 b.now at }
{
    u32::from_le_bytes([b[at], b[at + 1], b[at + 2], b[at + 3]]) as usize
}

// The number of 8 bytes at a place.
pub fn number8(b: &[u8], at: usize) -> u64
    requires { at + 8 ≤ length b.now }
    ensures { result ≡ number_at 8 b.now at }
{
    u64::from_le_bytes([
        b[at],
        b[at + 1],
        b[at + 2],
        b[at + 3],
        b[at + 4],
        b[at + 5],
        b[at + 6],
        b[at + 7],
    ])
}
