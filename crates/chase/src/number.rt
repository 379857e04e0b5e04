// A decimal number read from text in parts.
ghost use Rattle.std.specs.Prelude.{◌≡◌};
ghost use Rattle.chase.specs.Numbers.{at_most501, read_byte, read_on};

// The number so far, 501 for all above 500, and whether further bytes may belong to it.
#[derive(Clone, Copy)]
pub struct Number {
    pub value: u16,
    pub more: bool,
}

// The number after one more digit, at most 501.
fn capped(n: u32) -> u16
    ensures { result ≡ at_most501 n }
{
    if n <= 501 { n as u16 } else { 501 }
}

// One more byte.
fn read_byte(x: Number, b: u8) -> Number
    ensures { result ≡ read_byte x b }
{
    if !x.more || b < b'0' || b'9' < b {
        return Number { more: false, ..x };
    }
    let value = capped(10 * (x.value as u32) + (b - b'0') as u32);
    Number { value, more: true }
}

// More bytes.
pub fn read_on(x: Number, bytes: &[u8]) -> Number
    ensures { result ≡ read_on x bytes.now }
{
    let mut x = x;
    for b in bytes {
        x = read_byte(x, *b);
    }
    x
}
