// The start of a live rig: its image into the lent bytes.
ghost use Rattle.image.specs.Live.{StartMeets};

use live_rig::start::start_in;
use plan::Refusal;
use plan_file::opening::open;

// The start: 1 to 6, 20 for a short rig; the image of the rig at the start of a plan file on this many desks.
#[unsafe(no_mangle)]
pub extern "C" fn mortarsedge_start<'a>(processors: u32, plan: &'a [u8], rig: &'a mut [u8]) -> u32
    ensures { StartMeets processors plan.now rig.old result rig.new }
{
    if !base::is_within(1, 6, processors as usize) {
        return Refusal::BadProcessors.number();
    }
    let mut codes = [0u32; 4096];
    let mut parents = [0u8; 129];
    let mut senders = [0u8; 129];
    let mut receivers = [0u8; 129];
    let read = open(plan, &mut codes, &mut parents, &mut senders, &mut receivers);
    let answer = read.answer;
    match answer {
        Err(a) => a.number(),
        Ok(()) => {
            if rig.len() < 34120 {
                return 20;
            }
            start_in(
                &mut rig[..34120],
                processors as u8,
                plan,
                &senders,
                &receivers,
                &parents,
            );
            0
        }
    }
}
