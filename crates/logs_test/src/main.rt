// Compares the check of two logs with records of an independent model. A record: the bytes of a log record, 10,
// in 1 byte, the lengths of the sent log and of the received log in 2 bytes each, that of the printed line in 1
// byte, and then the two logs and the line: `yes`, `no` and a channel, or `refused` and a number.
#![tactic(auto)]

ghost use Rattle.std.specs.Prelude.{◌≤◌};

use driver::log_files::mortarsedge_logs;
use show_files::records::{Bytes, Record};
use std::io;

// Two logs, and the line that is printed of them.
#[derive(Clone, Copy)]
struct Pair<'a> {
    sent: &'a [u8],
    received: &'a [u8],
    line: &'a [u8],
}

impl<'a> Record<'a> for Pair<'a> {
    fn read(file: &mut Bytes<'a>) -> Option<Pair<'a>> {
        let _log_record = file.byte()?;
        let sent = file.word()?;
        let received = file.word()?;
        let line = file.byte()?;
        Some(Pair {
            sent: file.part(sent as usize)?,
            received: file.part(received as usize)?,
            line: file.part(line as usize)?,
        })
    }
}

// The decimal number of the first digits in a line, from a place on; 0 where there is none. It ends at four digits.
fn number_in(line: &[u8], start: usize) -> u64
    ensures { result ≤ 10000 }
{
    let mut number: u64 = 0;
    for digit in line.get(start..).unwrap_or(b"") {
        match *digit {
            b'0'..=b'9' if number < 1000 => number = 10 * number + u64::from(*digit - b'0'),
            _ => return number,
        }
    }
    number
}

// What the export answers where this line is printed. The first byte tells the lines apart.
fn expected(line: &[u8]) -> Option<u64> {
    match line.first() {
        Some(b'y') => Some(0),
        Some(b'n') => Some(256 * number_in(line, 3)),
        Some(b'r') => Some(number_in(line, 8)),
        _ => None,
    }
}

fn agrees(pair: &Pair) -> bool {
    Some(mortarsedge_logs(pair.sent, pair.received)) == expected(pair.line)
}

// How many whole records the file has, and how many of them agree.
fn compare_all(file: &[u8]) -> (u64, u64) {
    let mut total: u64 = 0;
    let mut agree: u64 = 0;
    let mut rest = Bytes::of(file);
    while let Some(pair) = Pair::read(&mut rest) {
        total = total.wrapping_add(1);
        agree = agree.wrapping_add(agrees(&pair) as u64);
    }
    (total, agree)
}

fn main(rt: HostRuntime) -> io::Result<()> {
    let mut file = [0u8; 200000];
    let Some(file) = show_files::load_or_say(&rt, "logs.bin", &mut file) else {
        return Ok(());
    };
    let (total, agree) = compare_all(file);
    println!(rt; "{total} pairs of logs, {agree} answers agree")
}
