// Records as numbers of 64 bits: a pointer to a parent; a channel's own entry; a task, its children and its word, a number each. Each
// field has the width of its type, but for the seven states, beside which a task's mark stands; so a record is read back as it was.
ghost use Rattle.std.specs.Prelude.{◌≡◌, ◌%◌, ◌<◌, eqb};
ghost use Rattle.board.specs.packing.Packed.{hint_of, hint_word, channel_of, channel_word, travelling_word, state_of, state_number, task_of, task_word, word_of, word_number, first_number, ready_desk, bit};

use plan::{ProcessorId, Word};
use rules::channel::{Channel, Hint, Offer};
use rules::task::{Task, TaskState};

// The lowest seven bits.
fn low7(v: u64) -> u8
    ensures { result ≡ v % 128 }
{
    (v % 128) as u8
}

// The lowest eight bits.
fn low8(v: u64) -> u8
    ensures { result ≡ v % 256 }
{
    (v % 256) as u8
}

// The lowest sixteen bits.
fn low16(v: u64) -> u16
    ensures { result ≡ v % 65536 }
{
    (v % 65536) as u16
}

// Whether the lowest bit is set.
fn is_odd(v: u64) -> bool
    ensures { result ≡ eqb (v % 2) 1 }
{
    v % 2 == 1
}

// A mark as a number.
fn bit(b: bool) -> u64
    ensures { (result ≡ bit b) × (result < 2) }
{
    if b { 1 } else { 0 }
}

// A pointer, read from the lowest 24 bits: what a desk keeps for a parent, and the travelling pointer of a channel's own entry.
pub fn hint_of(v: u64) -> Hint
    ensures { result ≡ hint_of v }
{
    Hint {
        processor: ProcessorId(low8(v / 65536)),
        moves: low16(v),
    }
}

// A channel's own entry, read from its number.
pub fn channel_of(v: u64) -> Channel
    ensures { result ≡ channel_of v }
{
    Channel {
        granted: low8(v / 1099511627776),
        awaiting: is_odd(v / 281474976710656),
        carried: Offer {
            processor: ProcessorId(low8(v / 16777216)),
            number: low8(v / 4294967296),
        },
        travelling: hint_of(v),
    }
}

// A pointer as a number of 24 bits.
pub fn hint_word(h: Hint) -> u64
    ensures { (result ≡ hint_word h) × (result < 16777216) }
{
    65536 * (h.processor.0 as u64) + h.moves as u64
}

// The number of a channel's own entry with another travelling pointer.
pub fn with_travelling(v: u64, h: Hint) -> u64
    ensures { result ≡ travelling_word v h }
{
    16777216 * (v / 16777216) + hint_word(h)
}

// A channel's own entry as a number. The fields that most changes leave come first.
pub fn channel_word(y: Channel) -> u64
    ensures { result ≡ channel_word y }
{
    y.travelling.moves as u64
        + 65536 * (y.travelling.processor.0 as u64)
        + 16777216 * (y.carried.processor.0 as u64)
        + 4294967296 * (y.carried.number as u64)
        + 1099511627776 * (y.granted as u64)
        + 281474976710656 * bit(y.awaiting)
}

// A task's state, read from its number.
fn state_of(n: u8) -> TaskState
    ensures { result ≡ state_of n }
{
    match n {
        0 => TaskState::Unborn,
        1 => TaskState::Ready,
        2 => TaskState::Waiting,
        3 => TaskState::Sending,
        4 => TaskState::Receiving,
        5 => TaskState::Moving,
        _ => TaskState::Done,
    }
}

// A task's state as a number.
fn state_number(s: TaskState) -> u64
    ensures { (result ≡ state_number s) × (result < 128) }
{
    match s {
        TaskState::Unborn => 0,
        TaskState::Ready => 1,
        TaskState::Waiting => 2,
        TaskState::Sending => 3,
        TaskState::Receiving => 4,
        TaskState::Moving => 5,
        TaskState::Done => 6,
    }
}

// A word, read from its number: level 0 in its lowest sixteen bits.
fn word_of(v: u64) -> Word
    ensures { result ≡ word_of v }
{
    Word(
        low16(v),
        low16(v / 65536),
        low16(v / 4294967296),
        low16(v / 281474976710656),
    )
}

// A word as a number.
pub fn word_number(w: Word) -> u64
    ensures { result ≡ word_number w }
{
    w.0 as u64 + 65536 * (w.1 as u64) + 4294967296 * (w.2 as u64) + 281474976710656 * (w.3 as u64)
}

// The number of a word with another level 0.
pub fn with_first_level(v: u64, n: u16) -> u64
    ensures { result ≡ first_number v n }
{
    65536 * (v / 65536 % 281474976710656) + n as u64
}

// A task, read from its three numbers.
pub fn task_of(v: u64, children: u64, word: u64) -> Task
    ensures { result ≡ task_of v children word }
{
    Task {
        state: state_of(low7(v)),
        processor: ProcessorId(low8(v / 256)),
        pc: low8(v / 65536),
        origin: Hint {
            processor: ProcessorId(low8(v / 16777216)),
            moves: low16(v / 4294967296),
        },
        word: word_of(word),
        overflow: is_odd(v / 128),
        moves: low16(v / 281474976710656),
        children,
    }
}

// The first number of a task, its mark beside its state. In this order of its terms desk and place stand apart, and both counts (D64).
pub fn task_word(x: Task) -> u64
    ensures { result ≡ task_word x }
{
    state_number(x.state)
        + 281474976710656 * (x.moves as u64)
        + 65536 * (x.pc as u64)
        + 128 * bit(x.overflow)
        + 16777216 * (x.origin.processor.0 as u64)
        + 256 * (x.processor.0 as u64)
        + 4294967296 * (x.origin.moves as u64)
}

// The desk at which a task is ready, read from its first number; 0 where it is not ready.
pub fn ready_desk(v: u64) -> u8
    ensures { result ≡ ready_desk v }
{
    if v % 128 == 1 { low8(v / 256) } else { 0 }
}
