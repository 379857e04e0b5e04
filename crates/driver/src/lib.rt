// What the C driver calls: numbers and byte slices in, a number out.
#![tactic(auto)]

// The check of two logs.
pub mod log_files;

ghost use Rattle.std.specs.Prelude.{◌≡◌, ◌≤◌};
ghost use Rattle.plan.specs.Outcomes.{start_number};
ghost use Rattle.rules.specs.Answers.{run_number};
ghost use Rattle.driver.specs.Runs.{packed, enough, RunMeets};

use plan::Refusal;
use rules::step::RunRefusal;
use run::file::run::run_file;

// Plan check: whether a plan file can be started on this many desks. 0, or the number of the refusal.
pub fn mortarsedge_plan_check(processors: u32, plan: &[u8]) -> u32
    ensures { result ≡ start_number processors plan.now }
{
    if !(1..=6).contains(&processors) {
        return Refusal::BadProcessors.number();
    }
    plan::answer_number(plan_file::check_plan(plan))
}

// The number of a run's answer.
pub fn run_number(a: Result<(), RunRefusal>) -> u32
    ensures { (result ≡ run_number a) × (result ≤ 23) }
{
    match a {
        Ok(()) => 0,
        Err(RunRefusal::Unstarted(r)) => r.number(),
        Err(RunRefusal::BadSteps) => 8,
        Err(RunRefusal::OutputShort) => 20,
    }
}

// Both numbers in one.
pub fn packed(number: u32, filled: usize) -> u64
    requires { (number ≤ 23) × (filled ≤ enough) }
    ensures { result ≡ packed number filled }
{
    number as u64 + 256 * (filled as u64)
}

// The run: a plan file and a step file on this many desks, the trace into the lent output. The number
// of the answer, and 256 times the number of bytes that are filled.
pub fn mortarsedge_run<'a>(
    processors: u32,
    plan: &'a [u8],
    steps: &'a [u8],
    out: &'a mut [u8],
) -> u64
    ensures { RunMeets processors plan.now steps.now out.old result out.new }
{
    let o = run_file(processors, plan, steps, out);
    packed(run_number(o.answer), o.filled)
}
