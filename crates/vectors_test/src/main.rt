// Compares the library with records of an independent model: the plan check, every byte of the run's
// output, and that each accepted plan is written back and read again.
#![tactic(auto)]

// Steps and calls: what each gives, and the rig at the end.
mod calls;
// A plan: checked, written back, read again.
mod plans;
// A record of a file.
mod record;
// A run: its answer and every byte of the output.
mod runs;
// The expected bytes of steps and calls.
mod seen;

use record::Recorded;
use show_files::records::{Bytes, Record};
use std::io;
use std::rt::Files;

// What one record came to.
#[derive(Clone, Copy)]
pub struct Compared {
    pub plan: bool,
    pub run: bool,
    pub accepted: bool,
    pub back: bool,
}

fn compare(record: &Recorded) -> Compared {
    let number = driver::mortarsedge_plan_check(u32::from(record.processors), record.plan);
    let accepted = number == 0;
    Compared {
        plan: number == plans::expected_number(record),
        run: runs::agrees(record),
        accepted,
        back: accepted && plans::comes_back(record.plan),
    }
}

// What the records of a file came to.
#[derive(Clone, Copy, Default)]
pub struct Tally {
    pub records: u64,
    pub plans: u64,
    pub runs: u64,
    pub accepted: u64,
    pub back: u64,
}

impl Tally {
    // One record more.
    fn count(&mut self, c: Compared) {
        self.records = self.records.wrapping_add(1);
        self.plans = self.plans.wrapping_add(c.plan as u64);
        self.runs = self.runs.wrapping_add(c.run as u64);
        self.accepted = self.accepted.wrapping_add(c.accepted as u64);
        self.back = self.back.wrapping_add(c.back as u64);
    }
}

// Every whole record of a file of plans and runs.
fn compare_all(file: &[u8]) -> Tally {
    let mut tally = Tally::default();
    let mut rest = Bytes::of(file);
    while let Some(record) = Recorded::read(&mut rest) {
        tally.count(compare(&record));
    }
    tally
}

// How many whole records a file of steps and calls has, and how many of them agree.
fn compare_calls(file: &[u8]) -> (u64, u64) {
    let mut total: u64 = 0;
    let mut agree: u64 = 0;
    let mut rest = Bytes::of(file);
    while let Some(record) = Recorded::read(&mut rest) {
        total = total.wrapping_add(1);
        agree = agree.wrapping_add(calls::agrees(&record) as u64);
    }
    (total, agree)
}

// Of a file of steps and calls. A missing file counts as empty.
fn report_calls(rt: &(impl Files + Print + Eprint), name: &str) -> io::Result<()> {
    let mut file = [0u8; 400000];
    let file = show_files::load_or_say(rt, name, &mut file).unwrap_or(b"");
    let (total, agree) = compare_calls(file);
    println!(rt; "{name}: {total} records, {agree} agree")
}

// Of a file of plans and runs. A missing file counts as empty.
fn report(rt: &(impl Files + Print + Eprint), name: &str) -> io::Result<()> {
    let mut file = [0u8; 400000];
    let file = show_files::load_or_say(rt, name, &mut file).unwrap_or(b"");
    let Tally {
        records,
        plans,
        runs,
        accepted,
        back,
    } = compare_all(file);
    println!(rt;
        "{name}: {records} records, {plans} plans and {runs} runs agree; {accepted} accepted, {back} written back"
    )
}

fn main(rt: HostRuntime) -> io::Result<()> {
    report(&rt, "s103.bin")?;
    report(&rt, "edges.bin")?;
    report_calls(&rt, "calls.bin")
}
