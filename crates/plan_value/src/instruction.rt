// 3: the test of one instruction, by the edition of the plan file that it stands in.
ghost use Rattle.std.specs.Prelude.{◌≡◌, ◌&&◌, leb};
ghost use Rattle.base.specs.Choice.{within};
ghost use Rattle.plan.specs.RepeatRefusals.{new_instruction_ok};
ghost use Rattle.plan_value.specs.Editions.{present_edition, new_edition, allowed};

use plan::{ADD, CREATE, Instruction, REPEAT, REPEAT_END, SEND, SET, SYNC};

// What an edition allows: the highest kind.
#[derive(Clone, Copy)]
pub struct Edition {
    pub kinds: u8,
}

// Kinds 1 to 7.
pub fn present() -> Edition
    ensures { result ≡ present_edition }
{
    Edition { kinds: 7 }
}

// Kinds 8 and 9 as well, repeat and end of repeat.
pub fn with_repeats() -> Edition
    ensures { result ≡ new_edition }
{
    Edition { kinds: 9 }
}

// Its kind is known, its second byte is a level of a word for set and add and else zero, and its argument is
// in range, in a plan of `tasks` tasks.
fn instruction_ok(tasks: u8, x: Instruction) -> bool
    ensures { result ≡ new_instruction_ok tasks x }
{
    let opcode = x.opcode;
    let level = x.level;
    let operand = base::wide16(x.operand);
    // a repeat and its end
    if opcode > ADD {
        if level != 0 {
            return false;
        }
        if opcode == REPEAT {
            return base::is_within(1, 64, operand);
        }
        if opcode == REPEAT_END {
            return operand == 0;
        }
        return false;
    }
    // set and add
    if opcode >= SET {
        if level > 3 {
            return false;
        }
        return base::is_within(0, 65535, operand);
    }
    if level != 0 {
        return false;
    }
    // send and receive, sync and finish, create
    if opcode >= SEND {
        return base::is_within(1, 128, operand);
    }
    if opcode >= SYNC {
        return operand == 0;
    }
    if opcode >= CREATE {
        return base::is_within(2, base::wide8(tasks), operand);
    }
    false
}

// The kind is one of the edition's, and the instruction is in order.
pub fn is_allowed(e: Edition, tasks: u8, x: Instruction) -> bool
    ensures { result ≡ allowed e tasks x }
{
    let opcode = x.opcode;
    if opcode > e.kinds {
        return false;
    }
    instruction_ok(tasks, x)
}

// The same of a send or a receive, of kind k, whose second byte is zero, with argument a.
pub fn is_channel_allowed(e: Edition, k: u8, a: usize) -> bool
    ensures { result ≡ leb k e.kinds && within 1 128 a }
{
    base::both(k <= e.kinds, base::is_within(1, 128, a))
}
