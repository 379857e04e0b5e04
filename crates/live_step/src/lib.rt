// One step of a live rig, as a C program calls it.
#![tactic(auto)]

ghost use Rattle.std.specs.Prelude.{◌≡◌};
ghost use Rattle.image.specs.Live.{step_given, StepMeets};

use live_rig::record::put_received;
use live_rig::step::step_held;
use rules::step::Step;
use trace::answer_number;

// A step of three numbers; where they do not fit its four bytes, a step that is refused.
fn step_given(kind: u32, task: u32, number: u32) -> Step
    ensures { result ≡ step_given kind task number }
{
    if kind <= 255 {
        if task <= 255 {
            if number <= 65535 {
                return Step {
                    kind: kind as u8,
                    task: task as u8,
                    number: number as u16,
                };
            }
        }
    }
    Step {
        kind: 0,
        task: 0,
        number: 0,
    }
}

// One step: the number of its answer, and the word that it received in the record.
#[unsafe(no_mangle)]
pub extern "C" fn mortarsedge_step<'a>(
    rig: &'a mut [u8],
    kind: u32,
    task: u32,
    number: u32,
    record: &'a mut [u8],
) -> u32
    ensures { StepMeets rig.old (step_given kind task number) «record».old result rig.new «record».new }
{
    if record.len() < 10 {
        return 20;
    }
    let q = step_held(rig, step_given(kind, task, number));
    let received = q.received;
    put_received(record, 0, received);
    let answer = q.answer;
    answer_number(answer) as u32
}
