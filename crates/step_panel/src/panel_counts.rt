// The step panel after a step file, as a C program calls it.
ghost use Rattle.step_panel.specs.Panels.{PanelMeets};

use driver::run_number;
use panel::file::panel_file;
use panel::output::put_counts;

// The panel: how many runs, deliveries and moves get each of the numbers 0 to 26, of the rig that a step file leaves, into the lent
// numbers. 0, or the number of the refusal.
#[unsafe(no_mangle)]
pub extern "C" fn mortarsedge_panel_after<'a>(
    processors: u32,
    plan: &'a [u8],
    steps: &'a [u8],
    counts: &'a mut [u32],
) -> u32
    ensures { PanelMeets processors plan.now steps.now counts.old result counts.new }
{
    let s = panel_file(processors, plan, steps);
    let number = run_number(s.answer);
    if number != 0 {
        return number;
    }
    if counts.len() < 27 {
        return 20;
    }
    put_counts(counts, s.counts);
    0
}
