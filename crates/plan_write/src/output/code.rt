// The instructions of a plan file, written from the slots of a plan value.
ghost use Rattle.std.specs.Prelude.{◌≡◌, ◌+◌, ◌*◌, ◌≤◌, length};
ghost use Rattle.plan.specs.Layout.{instruction_bytes};
ghost use Rattle.plan_write.specs.output.Output.{overlay, slots_bytes};

use super::bytes::put_word;
use plan::Instruction;

// The bytes of an instruction put at a place of the output.
fn put_instruction(out: &mut [u8], at: usize, i: Instruction)
    requires { at + 4 ≤ length out.old }
    ensures { out.new ≡ overlay out.old at (instruction_bytes i) }
{
    out[at] = i.opcode;
    out[at + 1] = i.level;
    put_word(out, at + 2, i.operand);
}

// The instructions of all tasks, put at a place of the output.
pub fn write_code<'a>(
    out: &mut [u8],
    start: usize,
    tasks: u8,
    lengths: &'a [u8; 64],
    codes: &'a [u32; 4096],
)
    requires { (tasks ≤ 64)
        × (start + length (slots_bytes lengths.now codes.now (64 * tasks)) ≤ length out.old) }
    ensures { out.new
        ≡ overlay
        out.old
        start
        (slots_bytes lengths.now codes.now (64 * tasks)) }
{
    let mut at = start;
    for k in 0..tasks as usize {
        for i in 0..(lengths[k] as usize).min(64) {
            put_instruction(out, at, Instruction::of(codes[64 * k + i]));
            at += 4;
        }
    }
}
