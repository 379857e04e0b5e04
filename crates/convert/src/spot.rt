// Where a task stands in its program, and how it goes on.
ghost use Rattle.std.specs.Prelude.{◌≡◌, ◌≤◌};
ghost use Rattle.repeat_laws.specs.Left.{is_mark};
ghost use Rattle.convert.specs.Spots.{start_spot, next_spot};

use plan::{Instruction, REPEAT, REPEAT_END};

// How many instructions stand before it, how many rounds are left, and how many instructions stand before
// the one behind the last repeat.
#[derive(Clone, Copy)]
pub struct Spot {
    pub at: usize,
    pub rounds: usize,
    pub back: usize,
}

impl Spot {
    // At the first instruction.
    pub fn new() -> Spot
        ensures { result ≡ start_spot }
    {
        Spot {
            at: 0,
            rounds: 0,
            back: 0,
        }
    }
}

// From the instruction x to the next: behind a repeat with its rounds; from its end back while rounds are
// left; else on by one.
pub fn next(s: Spot, x: Instruction) -> Spot
    requires { s.at ≤ 64 }
    ensures { result ≡ next_spot s x }
{
    if x.opcode == REPEAT {
        return Spot {
            at: s.at + 1,
            rounds: x.operand as usize,
            back: s.at + 1,
        };
    }
    if x.opcode != REPEAT_END {
        return Spot { at: s.at + 1, ..s };
    }
    if 1 < s.rounds {
        return Spot {
            at: s.back,
            rounds: s.rounds - 1,
            ..s
        };
    }
    Spot {
        at: s.at + 1,
        rounds: 0,
        ..s
    }
}

// A repeat or its end.
pub fn is_mark(x: Instruction) -> bool
    ensures { result ≡ is_mark x }
{
    x.opcode == REPEAT || x.opcode == REPEAT_END
}
