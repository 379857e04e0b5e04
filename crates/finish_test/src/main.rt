// Compares the finish check with records of an independent model: refusal, verdict, accepted run steps and list, by the
// number and every byte of the output.
#![tactic(auto)]

// An answer: its number and every byte of the output.
mod answer;
// A record of the file.
mod record;
// The text that a record stands for.
mod text;

use record::Check;
use show_files::records::{Bytes, Record, holds_now};
use std::io;

// What one record came to.
#[derive(Clone, Copy)]
pub struct Compared {
    pub held: bool,
    pub agree: bool,
    pub refused: bool,
    pub finishes: bool,
}

// One record, where it holds.
fn compare(check: &Check) -> Compared {
    let held = holds_now(check.when);
    let agree = held && answer::agrees(check);
    Compared {
        held,
        agree,
        refused: agree && check.refusal != 0,
        finishes: agree && check.finishes,
    }
}

// What the records came to.
#[derive(Clone, Copy, Default)]
pub struct Tally {
    pub records: u64,
    pub held: u64,
    pub agree: u64,
    pub refused: u64,
    pub finishes: u64,
}

impl Tally {
    // One record more.
    fn count(&mut self, c: Compared) {
        self.records = self.records.wrapping_add(1);
        self.held = self.held.wrapping_add(c.held as u64);
        self.agree = self.agree.wrapping_add(c.agree as u64);
        self.refused = self.refused.wrapping_add(c.refused as u64);
        self.finishes = self.finishes.wrapping_add(c.finishes as u64);
    }
}

// Every whole record of the file.
fn compare_all(file: &[u8]) -> Tally {
    let mut tally = Tally::default();
    let mut rest = Bytes::of(file);
    while let Some(record) = Check::read(&mut rest) {
        tally.count(compare(&record));
    }
    tally
}

fn main(rt: HostRuntime) -> io::Result<()> {
    let mut file = [0u8; 200000];
    let Some(file) = show_files::load_or_say(&rt, "finish.bin", &mut file) else {
        return Ok(());
    };
    let Tally {
        records,
        held,
        agree,
        refused,
        finishes,
    } = compare_all(file);
    println!(rt;
        "{records} records, {held} hold; {agree} agree, {refused} of them refused and {finishes} finish"
    )
}
