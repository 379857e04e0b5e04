// The panel of a live rig: how many steps of it get each number.
ghost use Rattle.image.specs.Live.{PanelMeets};

use live_rig::counts::counts_in;
use panel::output::put_counts;

// The panel: how many runs, deliveries and moves of the rig get each of the numbers 0 to 26, into the lent numbers. 0, or the number of
// the refusal.
#[unsafe(no_mangle)]
pub extern "C" fn mortarsedge_panel<'a>(rig: &'a [u8], counts: &'a mut [u32]) -> u32
    ensures { PanelMeets rig.now counts.old result counts.new }
{
    if counts.len() < 27 {
        return 20;
    }
    let q = counts_in(rig);
    if !q.ok {
        return 9;
    }
    let shown = q.counts;
    put_counts(counts, shown);
    0
}
