// Compares the converter with records of an independent model: the answer and every byte of the output.
#![tactic(auto)]

// A conversion: its answer and every byte of the output.
mod conversion;
// A record of the file.
mod record;

use record::Conversion;
use show_files::records::{Bytes, Record, holds_now};
use std::io;

// What one record came to.
#[derive(Clone, Copy)]
pub struct Compared {
    pub held: bool,
    pub agree: bool,
    pub converted: bool,
}

// One record, where it holds.
fn compare(c: &Conversion) -> Compared {
    let held = holds_now(c.when);
    let agree = held && c.agrees();
    Compared {
        held,
        agree,
        converted: agree && c.number == 0,
    }
}

// What the records came to.
#[derive(Clone, Copy, Default)]
pub struct Tally {
    pub records: u64,
    pub held: u64,
    pub agree: u64,
    pub converted: u64,
}

impl Tally {
    // One record more.
    fn count(&mut self, c: Compared) {
        self.records = self.records.wrapping_add(1);
        self.held = self.held.wrapping_add(c.held as u64);
        self.agree = self.agree.wrapping_add(c.agree as u64);
        self.converted = self.converted.wrapping_add(c.converted as u64);
    }
}

// Every whole record of the file.
fn compare_all(file: &[u8]) -> Tally {
    let mut tally = Tally::default();
    let mut rest = Bytes::of(file);
    while let Some(record) = Conversion::read(&mut rest) {
        tally.count(compare(&record));
    }
    tally
}

fn main(rt: HostRuntime) -> io::Result<()> {
    let mut file = [0u8; 200000];
    let Some(file) = show_files::load_or_say(&rt, "repeats.bin", &mut file) else {
        return Ok(());
    };
    let Tally {
        records,
        held,
        agree,
        converted,
    } = compare_all(file);
    println!(rt; "{records} records, {held} hold; {agree} agree, {converted} of them converted")
}
