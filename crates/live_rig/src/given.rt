// A number of a call that stands for a desk or a task.
ghost use Rattle.std.specs.Prelude.{◌≡◌};
ghost use Rattle.image.specs.Live.{byte_given};

// A number that no byte holds stands for none.
pub fn byte_given(n: u32) -> u8
    ensures { result ≡ byte_given n }
{
    if n <= 255 {
        return n as u8;
    }
    0
}
