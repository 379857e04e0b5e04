// An answer compared: its number, how much is filled, and every byte of the output.
use crate::record::Check;
use crate::text::Text;
use planner::finish_check::mortarsedge_finish;
use show_files::answers::Answer;
use show_files::records::{UNTOUCHED, is_left};

// In an output of `room` bytes the check answers so and leaves these bytes.
fn answers(plan: &[u8], room: usize, number: u8, left: &[u8]) -> bool {
    let mut out = [UNTOUCHED; 512];
    let answer = match out.get_mut(..room) {
        Some(lent) => mortarsedge_finish(plan, lent),
        None => mortarsedge_finish(plan, &mut out),
    };
    let answer = Answer::from(answer);
    answer.number == u64::from(number) && answer.filled == left.len() && is_left(&out, left)
}

// A refused plan leaves the output as it was. Of an accepted one the whole text is written into an output of just its
// length; where one byte is missing, 20 is answered and the last line is left out.
pub fn agrees(check: &Check) -> bool {
    if check.refusal != 0 {
        return answers(check.plan, 512, check.refusal, b"");
    }
    let text = Text::of(check);
    let whole = text.whole();
    answers(check.plan, 512, 0, whole)
        && answers(check.plan, whole.len(), 0, whole)
        && answers(
            check.plan,
            whole.len().saturating_sub(1),
            20,
            text.before_last(),
        )
}
