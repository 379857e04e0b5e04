// The run: a plan file, a step file and a lent output.
ghost use Rattle.std.specs.Prelude.{◌≡◌};
ghost use Rattle.rules.specs.StepFiles.{steps_ok};
ghost use Rattle.run.specs.file.Writes.{RunFile};

use crate::file::drive::drive;
use plan::Refusal;
use plan_file::opening::open;
use plan_index::ends::numbers::put_numbers;
use rules::step::RunRefusal;

// The answer, and how much of the output is filled.
#[derive(Clone, Copy)]
pub struct Outcome {
    pub answer: Result<(), RunRefusal>,
    pub filled: usize,
}

// A refused file: the output is untouched.
fn refused(e: RunRefusal) -> Outcome
    ensures { result ≡ record { answer = Err e; filled = 0 } }
{
    Outcome {
        answer: Err(e),
        filled: 0,
    }
}

// Whether 8 is not answered.
pub fn steps_ok(steps: &[u8]) -> bool
    ensures { result ≡ steps_ok steps.now }
{
    steps.len() % 4 == 0 && steps.len() / 4 <= 2000
}

// 1 to 6 as at start; 8; 20.
pub fn run_file<'a>(processors: u32, plan: &'a [u8], steps: &'a [u8], out: &'a mut [u8]) -> Outcome
    ensures { RunFile processors plan.now steps.now out.old result.answer result.filled out.new }
{
    if processors < 1 || 6 < processors {
        return refused(RunRefusal::Unstarted(Refusal::BadProcessors));
    }
    let mut codes = [0u32; 4096];
    let mut parents = [0u8; 129];
    let mut senders = [0u8; 129];
    let mut receivers = [0u8; 129];
    let opened = open(plan, &mut codes, &mut parents, &mut senders, &mut receivers);
    match opened.answer {
        Err(a) => refused(RunRefusal::Unstarted(a)),
        Ok(()) => {
            if !steps_ok(steps) {
                return refused(RunRefusal::BadSteps);
            }
            let mut numbers = [0u8; 4096];
            put_numbers(opened.tasks, &opened.lengths, &codes, &mut numbers);
            let d = drive(
                opened.tasks,
                &codes,
                &numbers,
                &senders,
                &receivers,
                &parents,
                processors as u8,
                steps,
                out,
            );
            if d.whole {
                return Outcome {
                    answer: Ok(()),
                    filled: d.filled,
                };
            }
            Outcome {
                answer: Err(RunRefusal::OutputShort),
                filled: d.filled,
            }
        }
    }
}
