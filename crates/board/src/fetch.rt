// What a step looks at: instructions and their numbers.
ghost use Rattle.std.specs.Prelude.{eqb, ◌≡◌, ◌≤◌};
ghost use Rattle.plan.specs.Programs.{instruction_of};
ghost use Rattle.rules.specs.Tasks.{no_task};
ghost use Rattle.rig_parts.specs.Fetches.{instruction_in, last_of};

use plan::{ChannelId, Instruction, ProcessorId, TaskId, Word};
use rules::task::{Task, TaskState};

// What stands for a task where there is none.
pub fn no_task() -> Task
    ensures { result ≡ no_task }
{
    Task {
        state: TaskState::Unborn,
        processor: ProcessorId(0),
        pc: 0,
        origin: cell_rules::order::unknown(),
        word: Word(0, 0, 0, 0),
        overflow: false,
        moves: 0,
        children: 0,
    }
}

// The instruction at place pc of task t.
pub fn instruction_in(codes: &[u32; 4096], t: TaskId, pc: u8) -> Instruction
    requires { (1 ≤ t.0) × (t.0 ≤ 64) × (1 ≤ pc) × (pc ≤ 64) }
    ensures { result ≡ instruction_in codes.now t pc }
{
    let at = 64 * (t.0 as usize - 1) + (pc as usize - 1);
    Instruction::of(codes[at])
}

// The four bytes of the last executed instruction of task t at place pc, 0 if there is none.
fn last_code(codes: &[u32; 4096], t: TaskId, pc: u8) -> u32
    requires { (t.0 ≤ 64) × (pc ≤ 65) }
    ensures { result ≡ last_of codes.now t pc }
{
    if t.0 == 0 || pc < 2 {
        return 0;
    }
    let at = 64 * (t.0 as usize - 1) + (pc as usize - 2);
    codes[at]
}

// The number of the last executed instruction of task t at place pc, 0 if it is no send.
pub fn last_number(numbers: &[u8; 4096], t: TaskId, pc: u8) -> u8
    requires { (t.0 ≤ 64) × (pc ≤ 65) }
    ensures { result ≡ last_of numbers.now t pc }
{
    if t.0 == 0 || pc < 2 {
        return 0;
    }
    let slot = 64 * (t.0 as usize - 1) + (pc as usize - 2);
    numbers[slot]
}

// A task's last executed instruction is on channel c.
pub fn is_on(codes: &[u32; 4096], t: TaskId, c: ChannelId, pc: u8) -> bool
    requires { (t.0 ≤ 64) × (pc ≤ 65) }
    ensures { result ≡ eqb (instruction_of (last_of codes.now t pc)).operand c.0 }
{
    let last = Instruction::of(last_code(codes, t, pc));
    last.operand as usize == c.0 as usize
}
