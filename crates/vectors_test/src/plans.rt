// A plan compared: the number of its check; and it is written back and read again.
use crate::record::Recorded;
use plan_write::round_trip;

// The number that plan check should answer: a refusal of the step file, 8, says that the plan was
// accepted.
pub fn expected_number(record: &Recorded) -> u32 {
    match record.number() {
        number @ 1..=6 => u32::from(number),
        _ => 0,
    }
}

// The plan read from the file, written again, is the file. The output is lent.
fn writes_back(file: &[u8], out: &mut [u8]) -> bool {
    match round_trip::rewrite(file, out) {
        Ok(size) => out.get(..size) == Some(file),
        Err(_) => false,
    }
}

// The plan read from the file, written and read again, is accepted with as many tasks.
fn rereads(file: &[u8], out: &mut [u8]) -> bool {
    let plan = plan_file::read_plan(file).plan;
    let again = round_trip::reread(plan, out);
    again.answer.is_ok() && again.plan.tasks == plan.tasks
}

// Both, of an accepted file.
pub fn comes_back(file: &[u8]) -> bool {
    let mut out = [0u8; 65536];
    writes_back(file, &mut out) && rereads(file, &mut out)
}
