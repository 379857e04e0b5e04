// The chase program: reads a number of forwards from standard input, the digits before the first other byte, and writes a plan and
// steps for three desks in which one offer is forwarded so often, as the files `rig.plan` and `rig.steps`. It prints that offer's
// count of forwarding deliveries; or `refused` and the number, and then no file is touched.
#![tactic(auto)]

use chase::ChaseRefusal;
use chase::number::{Number, read_on};
use show_files::answers::print_refusal;
use std::fs::{File, OpenFile};
use std::io::{Read, Write};
use std::rt::Files;
use std::{fs, io};

// The number, read in parts to its end, which is also the end of the input. No input has as many parts as there are
// turns.
fn read_number(input: &mut impl Read) -> u16 {
    let mut text = [0u8; 4096];
    let mut number = Number {
        value: 0,
        more: true,
    };
    for _ in 0..u64::MAX {
        let size = input.read(&mut text).unwrap_or(0);
        number = read_on(number, &text[..size]);
        if size == 0 || !number.more {
            break;
        }
    }
    number.value
}

// The bytes become a file; an error where not all of them are written.
fn save(rt: &impl Files, name: &str, bytes: &[u8]) -> io::Result<()> {
    let mut file = File::create(rt, name)?;
    file.write_all(bytes)?;
    file.sync_all()
}

// Both files are written under other names and renamed when both are whole; or which file failed, and why.
fn keep(rt: &impl Files, plan: &[u8], steps: &[u8]) -> Result<(), (&'static str, io::Error)> {
    save(rt, "rig.plan.new", plan).map_err(|why| ("rig.plan", why))?;
    save(rt, "rig.steps.new", steps).map_err(|why| ("rig.steps", why))?;
    fs::rename(rt, "rig.plan.new", "rig.plan").map_err(|why| ("rig.plan", why))?;
    fs::rename(rt, "rig.steps.new", "rig.steps").map_err(|why| ("rig.steps", why))
}

// The count of forwards is printed when both files are there. Else it is said which failed and why, and nothing is left of what
// was written.
fn keep_chase(
    rt: &(impl Files + Print + Eprint),
    m: u64,
    plan: &[u8],
    steps: &[u8],
) -> io::Result<()> {
    match keep(rt, plan, steps) {
        Ok(()) => println!(rt; "{m}"),
        Err((name, why)) => {
            show_files::fail(rt, name, why);
            let _ = fs::remove_file(rt, "rig.plan.new");
            let _ = fs::remove_file(rt, "rig.steps.new");
            Ok(())
        }
    }
}

// The buffers are as long as the plan, and longer than the steps of any chase, of 6,044 bytes.
fn main(rt: HostRuntime) -> io::Result<()> {
    let m = u64::from(read_number(&mut rt.reader()));
    let mut plan = [0u8; 32];
    let mut steps = [0u8; 65536];
    match chase::write_chase(m, &mut plan, &mut steps) {
        Ok(size) => match steps.get(..size) {
            Some(written) => keep_chase(&rt, m, &plan, written),
            None => Ok(()),
        },
        Err(ChaseRefusal::TooMany) => print_refusal(&rt, 26),
        Err(ChaseRefusal::OutputShort) => print_refusal(&rt, 20),
    }
}
