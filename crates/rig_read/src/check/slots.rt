// The two numbers of a slot in use, by the kind of its letter: the bytes that the kind does not have are 0, and those that it has are
// within the limits of refusal 9. A number of desks is n, a number of tasks m.
ghost use Rattle.std.specs.Prelude.{◌≡◌, ◌%◌};
ghost use Rattle.base.specs.Choice.{within};
ghost use Rattle.image.specs.Letters.{high16};
ghost use Rattle.rig_read.specs.Slots.{offered_passes, advert_passes, call_passes, word_passes, ended_passes, mover_passes};
ghost use Rattle.rig_read.specs.Passing.{slot_passes};

// The lowest byte is from 1 to the limit.
fn byte_ok(limit: u8, v: u64) -> bool
    ensures { result ≡ within 1 limit (v % 256) }
{
    let x = v % 256;
    1 <= x && x <= limit as u64
}

// The move count.
fn moves_ok(v: u64) -> bool
    ensures { result ≡ within 1 9999 (high16 v) }
{
    let moves = v / 281474976710656 % 65536;
    1 <= moves && moves <= 9999
}

// An offer letter.
fn offered_ok(n: u8, v: u64, w: u64) -> bool
    ensures { result ≡ offered_passes n v w }
{
    v / 1099511627776 % 256 == 0
        && w == 0
        && byte_ok(128, v / 256)
        && byte_ok(n, v / 16777216)
        && byte_ok(64, v / 4294967296)
        && byte_ok(n, v / 65536)
        && moves_ok(v)
}

// An advert.
fn advert_ok(n: u8, v: u64, w: u64) -> bool
    ensures { result ≡ advert_passes n v w }
{
    let tidy = v < 4294967296 && w == 0;
    tidy && byte_ok(128, v / 256) && byte_ok(n, v / 65536) && byte_ok(n, v / 16777216)
}

// A call letter.
fn call_ok(n: u8, v: u64, w: u64) -> bool
    ensures { result ≡ call_passes n v w }
{
    v / 4294967296 % 65536 == 0
        && w == 0
        && byte_ok(128, v / 256)
        && byte_ok(n, v / 65536)
        && byte_ok(n, v / 16777216)
        && moves_ok(v)
}

// A word letter, with any word.
fn word_ok(n: u8, v: u64) -> bool
    ensures { result ≡ word_passes n v }
{
    v < 16777216 && byte_ok(128, v / 256) && byte_ok(n, v / 65536)
}

// An ended letter.
fn ended_ok(n: u8, m: u8, v: u64, w: u64) -> bool
    ensures { result ≡ ended_passes n m v w }
{
    v / 16777216 % 16777216 == 0
        && w == 0
        && byte_ok(n, v / 65536)
        && moves_ok(v)
        && byte_ok(m, v / 256)
}

// A mover letter.
fn mover_ok(n: u8, m: u8, v: u64, w: u64) -> bool
    ensures { result ≡ mover_passes n m v w }
{
    v < 16777216 && w == 0 && byte_ok(n, v / 65536) && byte_ok(m, v / 256)
}

// Any letter. Two choices of few kinds take no table of jumps.
pub fn slot_ok(n: u8, m: u8, v: u64, w: u64) -> bool
    ensures { result ≡ slot_passes n m v w }
{
    let kind = v % 256;
    if kind <= 3 {
        return match kind {
            1 => offered_ok(n, v, w),
            2 => advert_ok(n, v, w),
            3 => call_ok(n, v, w),
            _ => false,
        };
    }
    match kind {
        4 => word_ok(n, v),
        5 => ended_ok(n, m, v, w),
        6 => mover_ok(n, m, v, w),
        _ => false,
    }
}
