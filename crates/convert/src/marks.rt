// What one instruction more of a task says: 21, 22, and how long the task is when written out.
ghost use Rattle.std.specs.Prelude.{◌≡◌, ◌≤◌, ◌*◌};
ghost use Rattle.convert.specs.Marks.{start_marks, next_marks};

use plan::{CREATE, Instruction, REPEAT, REPEAT_END};

// The instructions of a task so far: whether the next one stands within a repeat, and how often it is
// written; whether repeats and ends are in order, and creates; how many instructions are written.
#[derive(Clone, Copy)]
pub struct Marks {
    pub inside: bool,
    pub paired: bool,
    pub creates: bool,
    pub rounds: usize,
    pub length: usize,
}

impl Marks {
    // Of none.
    pub fn new() -> Marks
        ensures { result ≡ start_marks }
    {
        Marks {
            inside: false,
            paired: true,
            creates: true,
            rounds: 1,
            length: 0,
        }
    }
}

// One instruction more.
pub fn next(m: Marks, x: Instruction) -> Marks
    requires { (m.rounds ≤ 65535) × (m.length ≤ 65535 * 64) }
    ensures { result ≡ next_marks m x }
{
    if x.opcode == REPEAT {
        return Marks {
            inside: true,
            paired: m.paired & !m.inside,
            rounds: x.operand as usize,
            ..m
        };
    }
    if x.opcode == REPEAT_END {
        return Marks {
            inside: false,
            paired: m.paired & m.inside,
            rounds: 1,
            ..m
        };
    }
    let repeated = m.inside & (x.opcode == CREATE);
    Marks {
        creates: m.creates & !repeated,
        length: m.length + m.rounds,
        ..m
    }
}
