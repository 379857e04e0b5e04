// The converter program: writes the plan with repeats in the file `rig.repeats` into the file `rig.plan`,
// with every repeat written out, and prints the number of instructions before and after; or `refused` and
// the number, and then `rig.plan` is not touched.
#![tactic(auto)]

use plan_file::fields::word_at;
use planner::conversion::mortarsedge_convert;
use show_files::answers::{Answer, print_refusal};
use std::rt::Files;
use std::{fs, io};

// The first `filled` bytes become the file; an error where not all of them are written.
fn save(rt: &impl Files, name: &str, out: &[u8], filled: usize) -> io::Result<()> {
    match out.get(..filled) {
        Some(plan) => fs::write(rt, name, plan),
        None => Err(io::Error::other("more is filled than there is")),
    }
}

// The counts are "N (16 bits, instructions in all)", of the file before and after.
fn say(
    rt: &(impl Files + Print + Eprint),
    answer: Answer,
    repeats: &[u8],
    out: &[u8],
) -> io::Result<()> {
    if answer.number != 0 {
        return print_refusal(rt, answer.number);
    }
    let name = "rig.plan";
    if let Err(why) = save(rt, name, out, answer.filled) {
        show_files::fail(rt, name, why);
        return Ok(());
    }
    let before = word_at(repeats, 2);
    let after = word_at(out, 2);
    println!(rt; "{before} {after}")
}

// The buffers are longer than any accepted file, of 16,644 bytes, so that a longer one is refused and not
// cut, and a written one fits.
fn main(rt: HostRuntime) -> io::Result<()> {
    let mut repeats = [0u8; 65536];
    let mut out = [0u8; 65536];
    let size = show_files::load(&rt, "rig.repeats", &mut repeats);
    let answer = mortarsedge_convert(&repeats[..size], &mut out);
    say(&rt, Answer::from(answer), &repeats, &out)
}
