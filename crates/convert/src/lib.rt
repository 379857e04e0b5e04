// Plans with repeats converted: a file of the new edition is checked, written out and written as a file of
// the present edition.
#![tactic(auto)]

// 21 to 23 of a file's instructions.
pub mod find;
// What one instruction more of a task says: 21, 22, and how long the task is when written out.
pub mod marks;
// The instructions written out, into the slots of a plan value.
pub mod out;
// Where a task stands in its program, and how it goes on.
pub mod spot;

ghost use Rattle.std.specs.Prelude.{◌≡◌};
ghost use Rattle.plan.specs.Conversions.{Converted};
ghost use Rattle.plan.specs.RepeatRefusals.{new_instructions_ok};
ghost use Rattle.plan_file.specs.Code.{programs_in};
ghost use Rattle.convert.specs.Stages.{CodeConverted};
ghost use Rattle.plan_file.specs.scan.Code.{Whole};

use find::find;
use out::{none_empty, write_out};
use plan::{Plan, Refusal};
use plan_file::fields::rest_at;
use plan_file::header::header_at;
use plan_file::scan::walk::walk;
use plan_value::instruction::with_repeats;
use plan_write::write_plan;

// Whether every instruction is one of the new edition: the pass that plan check makes, by its edition.
fn all_allowed<'a>(file: &'a [u8], tasks: u8, lengths: &'a [u8; 64]) -> bool
    requires { Whole file.now tasks lengths.now }
    ensures { result ≡ new_instructions_ok (programs_in file.now tasks lengths.now) }
{
    let mut parents = [0u8; 129];
    let mut senders = [0u8; 129];
    let mut receivers = [0u8; 129];
    let p = walk(
        file,
        with_repeats(),
        tasks,
        lengths,
        &mut parents,
        &mut senders,
        &mut receivers,
    );
    p.instructions
}

// The instructions behind a header that is in order, of tasks with these numbers of instructions: 3 and 21 to
// 23; then they are written out, and the plan is written, where 4 to 6 and 20 are asked for. An empty task
// is refused by 4 before that: writing would refuse it by 2.
fn convert_code<'a>(
    file: &'a [u8],
    tasks: u8,
    lengths: &'a [u8; 64],
    out: &'a mut [u8],
) -> Result<usize, Refusal>
    requires { Whole file.now tasks lengths.now }
    ensures { CodeConverted (programs_in file.now tasks lengths.now) out.old result out.new }
{
    if !all_allowed(file, tasks, lengths) {
        return Err(Refusal::BadInstruction);
    }
    let found = find(file, tasks, lengths);
    if !found.paired {
        return Err(Refusal::BadRepeat);
    }
    if !found.creates {
        return Err(Refusal::RepeatedCreate);
    }
    if !found.short {
        return Err(Refusal::TooLong);
    }
    let mut counts = [0u8; 64];
    let mut codes = [0u32; 4096];
    write_out(file, tasks, lengths, &mut counts, &mut codes);
    if !none_empty(tasks, &counts) {
        return Err(Refusal::BadFinish);
    }
    let plan = Plan {
        tasks,
        lengths: counts,
        codes,
    };
    write_plan(plan, out)
}

// A file of the new edition converted: 2, then the instructions behind the header.
pub fn convert<'a>(file: &'a [u8], out: &'a mut [u8]) -> Result<usize, Refusal>
    ensures { Converted file.now out.old result out.new }
{
    let header = header_at(file, 0, file.len());
    if !header.ok {
        return Err(Refusal::BadLayout);
    }
    convert_code(
        rest_at(file, header.size),
        header.tasks,
        &header.lengths,
        out,
    )
}
