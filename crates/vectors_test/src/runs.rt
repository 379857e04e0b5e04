// A run compared: its answer, and every byte of the output.
use crate::record::Recorded;
use show_files::answers::Answer;
use show_files::records::{UNTOUCHED, is_left};

// The output is longer than any trace of the records and holds a byte that no trace has. A refused run leaves it as it
// was.
pub fn agrees(record: &Recorded) -> bool {
    let mut out = [UNTOUCHED; 16384];
    let processors = u32::from(record.processors);
    let answer = Answer::from(driver::mortarsedge_run(
        processors,
        record.plan,
        record.steps,
        &mut out,
    ));
    let number = record.number();
    let trace = match number {
        0 => record.output,
        _ => &record.output[..0],
    };
    answer.number == u64::from(number) && answer.filled == trace.len() && is_left(&out, trace)
}
