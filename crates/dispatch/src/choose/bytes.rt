// A step's four bytes, behind those of the steps before it.
ghost use Rattle.std.specs.Prelude.{◌≤◌, length};
ghost use Rattle.trace.specs.Output.{Emitted};
ghost use Rattle.run.specs.all_steps.Writes.{LineNext};
ghost use Rattle.dispatch.specs.Calls.{step_bytes};
ghost use Rattle.dispatch.specs.Boards.{Room};

use rules::step::Step;
use run::lines::note;

// The bytes behind the first `filled`, if they fit: how many were written.
fn emit_bytes(out: &mut [u8], filled: usize, s: Step) -> usize
    requires { filled ≤ length out.old }
    ensures { Emitted out.old filled (step_bytes s) result out.new }
{
    if out.len() - filled < 4 {
        return 0;
    }
    out[filled] = s.kind;
    out[filled + 1] = s.task;
    out[filled + 2] = (s.number % 256) as u8;
    out[filled + 3] = (s.number / 256) as u8;
    4
}

// The step behind those before it, if all of these fitted.
pub fn put_step<'a>(out: &'a mut [u8], progress: &'a mut [usize; 2], s: Step)
    requires { Room progress.old out.old }
    ensures { LineNext (step_bytes s) progress.old out.old progress.new out.new }
{
    if progress[1] != 0 {
        return;
    }
    let filled = progress[0];
    let written = emit_bytes(out, filled, s);
    note(progress, written);
}
