// Ordinary steps and calls of dispatchers compared: what each event gives, and the rig at the end, with the bytes of a
// record.
use crate::record::Recorded;
use crate::seen::Seen;
use plan::{ChannelId, ProcessorId, Word};
use rules::step::{Report, Step};
use rules::system::System;

// A step in its four bytes, its answer, and the channel of the received word, or 0, with its four levels, or zeros.
fn see_made(seen: &mut Seen, step: Step, report: Report) {
    let answer = trace::answer_number(report.answer);
    let (channel, word) = report.received.unwrap_or((ChannelId(0), Word(0, 0, 0, 0)));
    seen.see(&[step.kind, step.task]);
    seen.see(&step.number.to_le_bytes());
    seen.see(&[answer, channel.0]);
    for level in [word.0, word.1, word.2, word.3] {
        seen.see(&level.to_le_bytes());
    }
}

// A call at a desk: its answer, how many steps it made, and these. A number above 255 names no desk of a rig, and
// neither does 255.
fn call(seen: &mut Seen, r: System, number: u16) -> System {
    let desk = ProcessorId(u8::try_from(number).unwrap_or(255));
    let called = dispatch::dispatch(r, desk);
    let steps = called.delivery.is_some() as u8 + called.run.is_some() as u8;
    seen.see(&[trace::answer_number(called.answer), steps]);
    if let Some((step, report)) = called.delivery {
        see_made(seen, step, report);
    }
    if let Some((step, report)) = called.run {
        see_made(seen, step, report);
    }
    called.system
}

// An ordinary step: no refusal as a call, one step, and this.
fn take_step(seen: &mut Seen, r: System, step: Step) -> System {
    let stepped = rig_step::step(r, step);
    seen.see(&[0, 1]);
    see_made(seen, step, stepped.report);
    stepped.system
}

// An event has four bytes, those of a step. A call has kind 255.
fn event(seen: &mut Seen, r: System, bytes: [u8; 4]) -> System {
    let [kind, task, low, high] = bytes;
    let number = u16::from_le_bytes([low, high]);
    if kind == 255 {
        return call(seen, r, number);
    }
    take_step(seen, r, Step { kind, task, number })
}

// Rest, the number of letters, the last choices and the sets of ready tasks of the six desks.
fn see_rig(seen: &mut Seen, r: System) {
    let letters = (r.network.used % 65536) as u16;
    seen.see(&[dispatch::rest::rests(r) as u8]);
    seen.see(&letters.to_le_bytes());
    seen.see(&r.chosen);
    for ready in r.tasks.ready {
        seen.see(&ready.to_le_bytes());
    }
}

// The rig at the start of a plan, if that is accepted.
fn start(processors: u8, file: &[u8]) -> Option<System> {
    let plan = plan_file::read_plan(file).plan;
    let Ok(()) = plan_value::check(plan) else {
        return None;
    };
    Some(rig::start::start(processors, plan, plan_index::ends::derive(plan)))
}

// The events from the start of an accepted plan give the expected bytes, and no others.
pub fn agrees(record: &Recorded) -> bool {
    let Some(start) = start(record.processors, record.plan) else {
        return false;
    };
    let mut r = start;
    let mut seen = Seen::of(record.output);
    let (events, rest) = record.steps.as_chunks::<4>();
    for bytes in events {
        r = event(&mut seen, r, *bytes);
    }
    see_rig(&mut seen, r);
    rest.is_empty() && seen.is_all()
}
