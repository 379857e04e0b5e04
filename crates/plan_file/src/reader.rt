// The reader of plan files: the caller's bytes and a place. Each function takes it apart and leaves the work to a function
// of the bytes and the place.
ghost use Rattle.std.specs.Prelude.{◌≡◌, ◌+◌, ◌<◌, ◌^◌, length};
ghost use Rattle.plan_file.specs.Header.{header_of};
ghost use Rattle.plan_file.specs.Reader.{at_front, moved, left};
ghost use Rattle.plan_file.specs.Stages.{plan_of, Fits, Loads};

use super::Loaded;
use super::stages::{answer_at, load_at};
use crate::fields::left_at;
use crate::header::{Header, header_at};
use plan::Refusal;

#[derive(Clone, Copy)]
pub struct PlanReader<'a> {
    pub bytes: &'a [u8],
    pub at: usize,
}

// A reader at the front of a file.
pub fn new<'a>(file: &'a [u8]) -> PlanReader<'a>
    ensures { result ≡ at_front file.entry }
{
    PlanReader { bytes: file, at: 0 }
}

// The reader n bytes further on.
pub fn advanced<'a>(r: PlanReader<'a>, n: usize) -> PlanReader<'a>
    requires { r.at + n < 2 ^ 64 }
    ensures { result ≡ moved r.entry n }
{
    PlanReader {
        bytes: r.bytes,
        at: r.at + n,
    }
}

// How many bytes are left from here on.
pub fn left<'a>(r: PlanReader<'a>) -> usize
    ensures { result ≡ length (left r.entry) }
{
    left_at(r.bytes, r.at)
}

// The header that stands here, of the file that has n bytes left.
pub fn header<'a>(r: PlanReader<'a>, n: usize) -> Header
    requires { n ≡ length (left r) }
    ensures { result ≡ header_of (left r.entry) }
{
    header_at(r.bytes, r.at, n)
}

// The answer about the plan whose instructions stand here, behind its header.
pub fn answer<'a>(r: PlanReader<'a>, h: Header) -> Result<(), Refusal>
    requires { Fits h (left r) }
    ensures { result ≡ (plan_of h (left r.entry)).answer }
{
    answer_at(r.bytes, r.at, h)
}

// The plan itself, and who uses what.
pub fn loaded<'a>(r: PlanReader<'a>, h: Header) -> Loaded
    requires { Fits h (left r) }
    ensures { Loads (plan_of h (left r.entry)) result }
{
    load_at(r.bytes, r.at, h)
}
