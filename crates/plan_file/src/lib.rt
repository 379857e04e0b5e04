// Plan files checked and read. A reader is put at the file's front; the header is read where it stands, and
// then the instructions behind it.
#![tactic(auto)]

// The instructions of a file, at a place.
pub mod code;
// A byte and a 16-bit number at a place of a file.
pub mod fields;
// The header of a file, at a place.
pub mod header;
// A file checked, and read into what is lent.
pub mod opening;
// The reader: it holds the file's bytes and a place.
mod reader;
// 3 to 6 of a file in one pass over its instructions.
pub mod scan;
// What the reader does at a place, on slices.
mod stages;

ghost use Rattle.std.specs.Prelude.{◌≡◌};
ghost use Rattle.plan.specs.Files.{file_answer};
ghost use Rattle.plan.specs.Outcomes.{plan_read};
ghost use Rattle.plan_file.specs.Header.{header_of};
ghost use Rattle.plan_file.specs.Stages.{Loads};

use crate::header::Header;
use plan::{Plan, PlanRead, Refusal};

// What loading a file gives: what reading it gives, and, by argument, each task's parent and each channel's
// sender and receiver, if it is accepted.
#[derive(Clone, Copy)]
pub struct Loaded {
    pub answer: Result<(), Refusal>,
    pub plan: Plan,
    pub parents: [u8; 129],
    pub senders: [u8; 129],
    pub receivers: [u8; 129],
}

// The header of a plan file.
pub fn header_of(file: &[u8]) -> Header
    ensures { result ≡ header_of file.now }
{
    let start = reader::new(file);
    let n = reader::left(start);
    reader::header(start, n)
}

// A plan file checked: the plan's acceptance or the refusal.
pub fn check_plan(file: &[u8]) -> Result<(), Refusal>
    ensures { result ≡ file_answer file.now }
{
    let start = reader::new(file);
    let n = reader::left(start);
    let header = reader::header(start, n);
    let behind = reader::advanced(start, header.size);
    reader::answer(behind, header)
}

// A plan file loaded: the answer, the plan beside it, and who uses what.
pub fn load(file: &[u8]) -> Loaded
    ensures { Loads (plan_read file.now) result }
{
    let start = reader::new(file);
    let n = reader::left(start);
    let header = reader::header(start, n);
    let behind = reader::advanced(start, header.size);
    reader::loaded(behind, header)
}

// A plan file read: the answer, and the plan beside it.
pub fn read_plan(file: &[u8]) -> PlanRead
    ensures { result ≡ plan_read file.now }
{
    let Loaded { answer, plan, .. } = load(file);
    PlanRead { answer, plan }
}
