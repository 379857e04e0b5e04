// Compares what tablets and the driver show with records of an independent model: of every task, after a step
// file that is taken step by step. Tasks 0 and T + 1 are refused by 10.
#![tactic(auto)]

// A record of the file.
mod record;
// What a view shows.
mod shown;

use plan::TaskId;
use record::{Shown, View};
use rules::step::Step;
use rules::system::System;
use show_files::records::{Bytes, Record};
use shown::{driver_shows, refused_by_ten, tablet_shows};
use std::io;

// What one record came to.
#[derive(Clone, Copy)]
pub struct Compared {
    pub tablets: bool,
    pub drivers: bool,
    pub refused: bool,
}

// Both views of every task of a rig.
fn compare_views(r: System, expected: &[u8]) -> Compared {
    let tasks = r.plan.tasks;
    let mut tablets = true;
    let mut drivers = true;
    let mut views = Bytes::of(expected);
    for t in 1..=tasks {
        let view = View::read(&mut views);
        tablets &= view.is_some_and(|v| tablet_shows(r, v, TaskId(t)));
        drivers &= view.is_some_and(|v| driver_shows(r, v, TaskId(t)));
    }
    let none = refused_by_ten(r, TaskId(0));
    let more = refused_by_ten(r, TaskId(tasks.saturating_add(1)));
    Compared {
        tablets,
        drivers,
        refused: none && more,
    }
}

// The rig at the start of a plan, if that is accepted.
fn start(processors: u8, file: &[u8]) -> Option<System> {
    let plan = plan_file::read_plan(file).plan;
    let Ok(()) = plan_value::check(plan) else {
        return None;
    };
    Some(rig::start::start(processors, plan, plan_index::ends::derive(plan)))
}

// The rig after steps of four bytes each.
fn after(r: System, steps: &[u8]) -> System {
    let mut r = r;
    let (steps, _) = steps.as_chunks::<4>();
    for [kind, task, low, high] in steps {
        let step = Step {
            kind: *kind,
            task: *task,
            number: u16::from_le_bytes([*low, *high]),
        };
        r = rig_step::step(r, step).system;
    }
    r
}

fn compare(record: &Shown) -> Compared {
    match start(record.processors, record.plan) {
        Some(r) => compare_views(after(r, record.steps), record.views),
        None => Compared {
            tablets: false,
            drivers: false,
            refused: false,
        },
    }
}

// What the records of a file came to.
#[derive(Clone, Copy, Default)]
pub struct Tally {
    pub records: u64,
    pub tablets: u64,
    pub drivers: u64,
    pub refused: u64,
}

impl Tally {
    // One record more.
    fn count(&mut self, c: Compared) {
        self.records = self.records.wrapping_add(1);
        self.tablets = self.tablets.wrapping_add(c.tablets as u64);
        self.drivers = self.drivers.wrapping_add(c.drivers as u64);
        self.refused = self.refused.wrapping_add(c.refused as u64);
    }
}

// Every whole record of the file.
fn compare_all(file: &[u8]) -> Tally {
    let mut tally = Tally::default();
    let mut rest = Bytes::of(file);
    while let Some(record) = Shown::read(&mut rest) {
        tally.count(compare(&record));
    }
    tally
}

fn main(rt: HostRuntime) -> io::Result<()> {
    let mut file = [0u8; 300000];
    let Some(file) = show_files::load_or_say(&rt, "views.bin", &mut file) else {
        return Ok(());
    };
    let Tally {
        records,
        tablets,
        drivers,
        refused,
    } = compare_all(file);
    println!(rt;
        "{records} records: {tablets} tablets and {drivers} drivers agree; {refused} refuse tasks 0 and T + 1 by 10"
    )
}
