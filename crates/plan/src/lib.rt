// The types of a plan: numbers, instructions, the plan value, and the answers about it.
#![tactic(auto)]

ghost use Rattle.std.specs.Prelude.{◌≡◌};
ghost use Rattle.plan.specs.Answers.{answer_number, refusal_number};
ghost use Rattle.plan.specs.Programs.{code_of, instruction_of};
ghost use Rattle.plan.specs.Words.{level_of, with_level, set_word, add_word};

// "Task, desk and channel numbers are separate given sets in document 001; a number of one never
// serves as another. 0 means none."

// A task's number, 1 to 64 (document 001's THREAD).
#[derive(Clone, Copy, PartialEq, Eq)]
pub struct TaskId(pub u8);

// A processor's number, 1 to 6: the paper's "desk" (document 001's PE).
#[derive(Clone, Copy, PartialEq, Eq)]
pub struct ProcessorId(pub u8);

// A channel's number, 1 to 128 (document 001's CHANNEL).
#[derive(Clone, Copy, PartialEq, Eq)]
pub struct ChannelId(pub u8);

// "instructions of 4 bytes: kind, a zero byte, a 16-bit argument": the paper's kind is the opcode,
// its argument the operand. "The second byte of set and add, 0 to 3, says which one is meant": the
// level. A plan value can hold an unknown opcode, and instruction_of and code_of turn every number into an instruction and back, so the
// opcodes are numbers.
#[derive(Clone, Copy)]
pub struct Instruction {
    pub opcode: u8,
    pub level: u8,
    pub operand: u16,
}

// "A task's word .. hold four numbers, level 0 first", of 16 bits each: what a task stores and channels
// pass on. Its operations are in specs/Words.
#[derive(Clone, Copy, PartialEq, Eq)]
pub struct Word(pub u16, pub u16, pub u16, pub u16);

// What an add gives: the wrapped word, and whether the sum passed 65,535.
#[derive(Clone, Copy)]
pub struct Sum {
    pub word: Word,
    pub overflow: bool,
}

// "Kinds: 1 create, 2 sync, 3 finish, 4 send, 5 receive, 6 set, 7 add".
pub const CREATE: u8 = 1;

pub const SYNC: u8 = 2;

pub const FINISH: u8 = 3;

pub const SEND: u8 = 4;

pub const RECEIVE: u8 = 5;

pub const SET: u8 = 6;

pub const ADD: u8 = 7;

// In the new edition of the plan file: "kind 8, repeat .., and kind 9, end of repeat".
pub const REPEAT: u8 = 8;

pub const REPEAT_END: u8 = 9;

// A whole plan by value: 64 tasks of 64 instructions. What it means is `programs` of specs/Programs.
#[derive(Clone, Copy)]
pub struct Plan {
    // how many tasks
    pub tasks: u8,
    // how many instructions task t has, at t - 1
    pub lengths: [u8; 64],
    // task t's i-th instruction, as its four bytes in one number, at 64 (t - 1) + (i - 1)
    pub codes: [u32; 4096],
}

// The refusals of "Start", of "Writing a plan" and of converting a plan with repeats; specs/Answers gives
// each its number.
#[derive(Clone, Copy, PartialEq, Eq)]
pub enum Refusal {
    BadProcessors,
    BadLayout,
    BadInstruction,
    BadFinish,
    BadCreate,
    BadChannel,
    OutputShort,
    BadRepeat,
    RepeatedCreate,
    TooLong,
}

// What reading a file gives: the plan, which is empty where the file is refused. It is no Result, since the law read_clear and the
// definition rig_of speak of the plan of every file.
#[derive(Clone, Copy)]
pub struct PlanRead {
    pub answer: Result<(), Refusal>,
    pub plan: Plan,
}

impl Refusal {
    // The paper's number.
    pub fn number(self) -> u32
        ensures { result ≡ refusal_number self }
    {
        match self {
            Refusal::BadProcessors => 1,
            Refusal::BadLayout => 2,
            Refusal::BadInstruction => 3,
            Refusal::BadFinish => 4,
            Refusal::BadCreate => 5,
            Refusal::BadChannel => 6,
            Refusal::OutputShort => 20,
            Refusal::BadRepeat => 21,
            Refusal::RepeatedCreate => 22,
            Refusal::TooLong => 23,
        }
    }
}

// 0 for acceptance, else the refusal's number.
pub fn answer_number(a: Result<(), Refusal>) -> u32
    ensures { result ≡ answer_number a }
{
    match a {
        Ok(()) => 0,
        Err(r) => r.number(),
    }
}

impl Instruction {
    // The instruction of these four bytes.
    pub fn of(code: u32) -> Instruction
        ensures { result ≡ instruction_of code }
    {
        Instruction {
            opcode: (code % 256) as u8,
            level: (code / 256 % 256) as u8,
            operand: (code / 65536) as u16,
        }
    }

    // Its four bytes, as one number.
    pub fn code(self) -> u32
        ensures { result ≡ code_of self }
    {
        self.opcode as u32 + 256 * (self.level as u32) + 65536 * (self.operand as u32)
    }
}

impl Word {
    // Level k, 0 to 3.
    #[tactic(auto, unfolding(crate::specs::Words::level_of))]
    fn level(self, k: u8) -> u16
        ensures { result ≡ level_of self k }
    {
        match k {
            0 => self.0,
            1 => self.1,
            2 => self.2,
            _ => self.3,
        }
    }

    // The word with n at level k.
    #[tactic(auto, unfolding(crate::specs::Words::with_level))]
    fn with_level(mut self, k: u8, n: u16) -> Word
        ensures { result ≡ with_level self k n }
    {
        match k {
            0 => self.0 = n,
            1 => self.1 = n,
            2 => self.2 = n,
            _ => self.3 = n,
        }
        self
    }

    // "Set stores the task's word": one level of it.
    #[tactic(auto, unfolding(crate::specs::Words::set_word))]
    pub fn set(self, i: Instruction) -> Word
        ensures { result ≡ set_word self i }
    {
        self.with_level(i.level, i.operand)
    }

    // "add is taken modulo 65,536"; a sum that wrapped is below what was added to.
    pub fn add(self, i: Instruction) -> Sum
        ensures { result ≡ add_word self i }
    {
        let old = self.level(i.level);
        let sum = old.wrapping_add(i.operand);
        Sum {
            word: self.with_level(i.level, sum),
            overflow: sum < old,
        }
    }
}
