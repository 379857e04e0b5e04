// The lines of steps, written one behind the other as long as they fit. The progress: how many bytes are filled, and 1 where a
// line did not fit, behind which none is written.
ghost use Rattle.std.specs.Prelude.{◌≡◌, ◌+◌, ◌^◌, ◌<◌, ◌≤◌, length, get_or};
ghost use Rattle.rules.specs.Trace.{step_line};
ghost use Rattle.run.specs.all_steps.Writes.{noted, LineNext};

use rules::step::Report;
use trace::direct::emit_step;

// The progress after a line of which so many bytes were written; none, where it did not fit.
pub fn note(progress: &mut [usize; 2], written: usize)
    requires { (length progress.old ≡ 2) × (get_or progress.old 0 0 + written < 2 ^ 64) }
    ensures { progress.new ≡ noted progress.old written }
{
    if written == 0 {
        progress[1] = 1;
        return;
    }
    progress[0] += written;
}

// The line of the k-th step behind those before it.
pub fn emit_next<'a>(out: &'a mut [u8], progress: &'a mut [usize; 2], k: usize, q: Report)
    requires { (k < 100000) × (length progress.old ≡ 2) × (get_or progress.old 0 0 ≤ length out.old) }
    ensures { LineNext (step_line k q) progress.old out.old progress.new out.new }
{
    if progress[1] != 0 {
        return;
    }
    let written = emit_step(out, progress[0], k, q);
    note(progress, written);
}
