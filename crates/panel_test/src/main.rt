// Compares panels with those of an independent model: the plan of each record is started, its steps are made one by one,
// and the counts of the rig then are those of the record. Two rigs are changed by hand: one that 9 refuses, and one of seven desks.
// With a digit on standard input each panel is made 10,000 times that digit more, for a clock outside.
#![tactic(auto)]

// A record of a file.
mod record;
// The rig after a step file, and a rig to be changed by hand.
mod rigs;

use record::Counted;
use rules::system::System;
use show_files::answers::digit;
use show_files::records::{Bytes, Record};
use std::io;

// The counts are those of the record.
fn is_recorded(counts: [u16; 27], expected: &[u8]) -> bool {
    let (expected, _) = expected.as_chunks::<2>();
    expected.len() == 27
        && counts
            .iter()
            .zip(expected)
            .all(|(count, bytes)| *count == u16::from_le_bytes(*bytes))
}

fn agrees(record: &Counted, rounds: u64) -> bool {
    let counts = rigs::panel_after(record.processors, record.plan, record.steps, rounds);
    is_recorded(counts, record.counts)
}

// How many whole records the file has, and how many of them agree.
fn compare_all(file: &[u8], rounds: u64) -> (u64, u64) {
    let mut total: u64 = 0;
    let mut same: u64 = 0;
    let mut rest = Bytes::of(file);
    while let Some(record) = Counted::read(&mut rest) {
        total = total.wrapping_add(1);
        same = same.wrapping_add(agrees(&record, rounds) as u64);
    }
    (total, same)
}

// The panel of a rig of seven desks has no count.
fn seven_desks(mut r: System) -> bool {
    r.processors = 7;
    panel::panel(r) == [0; 27]
}

// Where task 2 of a plan of one task is the last choice of desk 1, all 259 steps are counted under 9.
fn choice_of_no_task(mut r: System) -> bool {
    r.chosen[0] = 2;
    let mut counts = [0; 27];
    counts[9] = 259;
    panel::panel(r) == counts
}

fn main(rt: HostRuntime) -> io::Result<()> {
    let mut file = [0u8; 400000];
    let Some(file) = show_files::load_or_say(&rt, "panel.bin", &mut file) else {
        return Ok(());
    };
    let rounds = 10000 * u64::from(digit(&rt).unwrap_or(0));
    let (total, same) = compare_all(file, rounds);
    println!(rt; "{total} records: {same} panels agree")?;
    let Some(r) = rigs::single_finish() else {
        return println!(rt; "a plan of one finish: WRONG");
    };
    if !seven_desks(r) {
        return println!(rt; "seven desks: WRONG");
    }
    if !choice_of_no_task(r) {
        return println!(rt; "a last choice of no task: WRONG");
    }
    println!(rt; "seven desks: no count; a last choice of no task: 259 under 9 alone")
}
