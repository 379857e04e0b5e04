// 21 to 23 of a file's instructions.
ghost use Rattle.std.specs.Prelude.{◌≤◌, ◌+◌, ◌*◌, length};
ghost use Rattle.convert.specs.Marks.{MarksOf, FoundIn};
ghost use Rattle.convert.specs.Tasks.{task_in};
ghost use Rattle.plan_file.specs.Code.{programs_in};
ghost use Rattle.plan_file.specs.scan.Code.{Whole};

use crate::marks::{Marks, next};
use plan_file::code::fetch;

// Whether repeats and ends are in order, and creates; and then whether no task is too long.
#[derive(Clone, Copy)]
pub struct Found {
    pub paired: bool,
    pub creates: bool,
    pub short: bool,
}

// The instructions of one task, which stand from a place on.
fn find_task(file: &[u8], at: usize, count: usize) -> Marks
    requires { (count ≤ 64) × (at + 4 * count ≤ length file.now) }
    ensures { MarksOf (task_in file.now at count) result }
{
    let mut m = Marks::new();
    for i in 0..count {
        m = next(m, fetch(file, at + 4 * i));
    }
    m
}

// The instructions of all tasks, one task behind the other.
pub fn find<'a>(file: &'a [u8], tasks: u8, lengths: &'a [u8; 64]) -> Found
    requires { Whole file.now tasks lengths.now }
    ensures { FoundIn (programs_in file.now tasks lengths.now) result }
{
    let mut found = Found {
        paired: true,
        creates: true,
        short: true,
    };
    let mut at: usize = 0;
    for k in 0..tasks as usize {
        let count = lengths[k] as usize;
        let m = find_task(file, at, count);
        found.paired &= m.paired & !m.inside;
        found.creates &= m.creates;
        found.short &= m.length <= 64;
        at += 4 * count;
    }
    found
}
