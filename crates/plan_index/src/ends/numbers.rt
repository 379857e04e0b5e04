// The number of each send: how many sends on its channel the task has
// up to it.
ghost use Rattle.std.specs.Prelude.{◌≡◌, ◌<◌, ◌≤◌, length, replicate};
ghost use Rattle.plan.specs.Programs.{programs};
ghost use Rattle.plan.specs.Refusals.{plan_answer};
ghost use Rattle.plan_value.specs.Slots.{plan_in};
ghost use Rattle.plan_index.specs.ends.Derived.{ends_of};
ghost use Rattle.plan_index.specs.ends.Numbers.{SendsFit, Unsent, counted_task, numbered_task};

use plan::{Instruction, SEND};

// The sends of task k + 1, which has `count` instructions, numbered. How many sends on each channel there were is counted on: no task
// before it sends on its channels.
fn number_task<'a>(
    k: usize,
    count: usize,
    codes: &'a [u32; 4096],
    sent: &'a mut [u8; 129],
    numbers: &'a mut [u8; 4096],
)
    requires { (k < 64) × (count ≤ 64) × (length numbers.old ≡ 4096) × (SendsFit codes.now k count)
        × (length sent.old ≡ 129) × (Unsent codes.now k count sent.old) }
    ensures { (numbers.new ≡ numbered_task codes.now numbers.old k count)
        × (sent.new ≡ counted_task codes.now sent.old k count) }
{
    for i in 0..count {
        let s = 64 * k + i;
        let x = Instruction::of(codes[s]);
        if x.opcode == SEND {
            let c = x.operand as usize;
            let n = sent[c] + 1;
            sent[c] = n;
            numbers[s] = n;
        }
    }
}

// The numbers of all sends of an accepted plan, task by task, into what is lent, where nothing stands yet.
pub fn put_numbers<'a>(
    tasks: u8,
    lengths: &'a [u8; 64],
    codes: &'a [u32; 4096],
    numbers: &'a mut [u8; 4096],
)
    requires { (plan_answer (programs (plan_in tasks lengths.now codes.now)) ≡ Ok tt) × (numbers.old ≡ replicate 4096 0) }
    ensures { numbers.new ≡ (ends_of (plan_in tasks lengths.now codes.now)).numbers }
{
    let mut sent = [0u8; 129];
    for k in 0..tasks as usize {
        number_task(k, lengths[k] as usize, codes, &mut sent, numbers);
    }
}

// The same, by value.
pub fn send_numbers<'a>(tasks: u8, lengths: &'a [u8; 64], codes: &'a [u32; 4096]) -> [u8; 4096]
    requires { plan_answer (programs (plan_in tasks lengths.now codes.now)) ≡ Ok tt }
    ensures { result ≡ (ends_of (plan_in tasks lengths.now codes.now)).numbers }
{
    let mut numbers = [0u8; 4096];
    put_numbers(tasks, lengths, codes, &mut numbers);
    numbers
}
