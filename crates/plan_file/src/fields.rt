// What stands in a file at a place.
ghost use Rattle.std.specs.Prelude.{◌≡◌, length, drop};
ghost use Rattle.plan.specs.Files.{byte_at, word16};

// The byte at a place, 0 behind the end.
pub fn byte_at(file: &[u8], at: usize) -> u8
    ensures { result ≡ byte_at file.now at }
{
    file.get(at).copied().unwrap_or(0)
}

// The little-endian field of 16 bits at a place.
pub fn word_at(file: &[u8], at: usize) -> u16
    ensures { result ≡ word16 file.now at }
{
    if file.len() <= at {
        return 0;
    }
    u16::from_le_bytes([byte_at(file, at), byte_at(file, at + 1)])
}

// What is left of a file from a place on: nothing from its end on.
pub fn rest_at(file: &[u8], at: usize) -> &[u8]
    ensures { result.now ≡ drop at file.now }
{
    &file[at.min(file.len())..]
}

// How many bytes are left from a place on: none from the end on.
pub fn left_at(file: &[u8], at: usize) -> usize
    ensures { result ≡ length (drop at file.now) }
{
    rest_at(file, at).len()
}
