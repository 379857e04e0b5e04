// What a program is told, and what it prints of a call's answer.
ghost use Rattle.std.specs.Prelude.{◌≡◌, ◌<◌, ◌/◌, ◌%◌, IfSome};

use std::io;
use std::io::Read;

// The digit that is first on standard input, if one is.
pub fn digit(rt: &impl Input) -> Option<u32>
    ensures { IfSome result (λ d. d < 10) }
{
    let mut first = [0u8; 1];
    rt.reader().read_exact(&mut first).ok()?;
    char::from(first[0]).to_digit(10)
}

pub fn print_refusal(rt: &impl Print, number: u64) -> io::Result<()> {
    println!(rt; "refused {number}")
}

// What a call answers in one number: the number of its refusal, 0 for none, and 256 times how many bytes of the output it
// filled.
#[derive(Clone, Copy)]
pub struct Answer {
    pub number: u64,
    pub filled: usize,
}

impl From<u64> for Answer {
    fn from(answer: u64) -> Answer
        ensures { (result.number ≡ answer % 256) × (result.filled ≡ answer / 256) }
    {
        Answer {
            number: answer % 256,
            filled: (answer / 256) as usize,
        }
    }
}

impl Answer {
    // What a call answers, taken apart.
    pub fn of(answer: u64) -> Answer
        ensures { (result.number ≡ answer % 256) × (result.filled ≡ answer / 256) }
    {
        Answer::from(answer)
    }
}

// Prints the bytes that are filled, or the refusal.
pub fn print_answer(rt: &impl Print, answer: u64, out: &[u8]) -> io::Result<()> {
    let answer = Answer::from(answer);
    if answer.number != 0 {
        return print_refusal(rt, answer.number);
    }
    match out.get(..answer.filled) {
        Some(text) => rt.write_all(text),
        None => Ok(()),
    }
}
