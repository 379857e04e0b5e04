// A call of a desk's dispatcher, as a C program calls it.
#![tactic(auto)]

ghost use Rattle.std.specs.Prelude.{◌≡◌, ◌+◌, ◌*◌, ◌≤◌, length};
ghost use Rattle.plan_write.specs.output.Output.{overlay};
ghost use Rattle.rules.specs.Dispatch.{step_of, report_of};
ghost use Rattle.image.specs.Live.{step_bytes, report_bytes, all_step_bytes, all_report_bytes, DispatchMeets};

use live_rig::desk_call::call_held;
use live_rig::given::byte_given;
use live_rig::record::put_received;
use plan::ProcessorId;
use rig_write::numbers::put_bytes;
use rules::step::{Report, Step};
use trace::answer_number;

// The four bytes of a step.
fn put_step(out: &mut [u8], at: usize, s: Step)
    requires { at + 4 ≤ length out.old }
    ensures { out.new ≡ overlay out.old at (step_bytes s) }
{
    let low = (s.number % 256) as u8;
    let high = (s.number / 256) as u8;
    let bytes = [s.kind, s.task, low, high];
    put_bytes(out, at, &bytes);
}

// The answer of a report, and its word record.
fn put_report(out: &mut [u8], at: usize, q: Report)
    requires { at + 11 ≤ length out.old }
    ensures { out.new ≡ overlay out.old at (report_bytes q) }
{
    let answer = q.answer;
    let number = [answer_number(answer)];
    put_bytes(out, at, &number);
    let received = q.received;
    put_received(out, at + 1, received);
}

// A turn's step and report behind so many others: how many there are then.
fn put_turn<'a>(
    steps: &'a mut [u8],
    records: &'a mut [u8],
    count: usize,
    t: Option<(Step, Report)>,
) -> usize
    requires { (count ≤ 1) × (8 ≤ length steps.old) × (22 ≤ length records.old) }
    ensures { (result ≡ count + length (step_of t))
        × (steps.new ≡ overlay steps.old (4 * count) (all_step_bytes (step_of t)))
        × (records.new ≡ overlay records.old (11 * count) (all_report_bytes (report_of t))) }
{
    match t {
        None => count,
        Some((s, q)) => {
            put_step(steps, 4 * count, s);
            put_report(records, 11 * count, q);
            count + 1
        }
    }
}

// The number of a call's answer, and 256 times the number of bytes of so many steps.
fn answered(number: u8, count: usize) -> u64
    requires { count ≤ 2 }
    ensures { result ≡ number + 256 * (4 * count) }
{
    number as u64 + 256 * (4 * count as u64)
}

// A call at a desk: the delivery and the run that it made, as steps and as reports.
#[unsafe(no_mangle)]
pub extern "C" fn mortarsedge_dispatch<'a>(
    rig: &'a mut [u8],
    desk: u32,
    steps: &'a mut [u8],
    records: &'a mut [u8],
) -> u64
    ensures { DispatchMeets rig.old desk steps.old records.old result rig.new steps.new records.new }
{
    if steps.len() < 8 {
        return 20;
    }
    if records.len() < 22 {
        return 20;
    }
    let q = call_held(rig, ProcessorId(byte_given(desk)));
    let delivery = q.delivery;
    let run = q.run;
    let first = put_turn(steps, records, 0, delivery);
    let both = put_turn(steps, records, first, run);
    let answer = q.answer;
    answered(answer_number(answer), both)
}
