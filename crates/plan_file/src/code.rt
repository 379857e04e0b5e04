// The instructions of a plan file, read into the slots of a plan value.
ghost use Rattle.std.specs.Prelude.{◌≡◌, ◌+◌, ◌*◌, ◌<◌, length, replicate};
ghost use Rattle.plan.specs.Files.{file_instruction};
ghost use Rattle.plan.specs.Programs.{canonical};
ghost use Rattle.plan_file.specs.Code.{programs_in};
ghost use Rattle.plan_file.specs.scan.Code.{Whole};

use plan::Instruction;

// The instruction at a place.
pub fn fetch(file: &[u8], at: usize) -> Instruction
    requires { at + 3 < length file.now }
    ensures { result ≡ file_instruction file.now at }
{
    Instruction {
        opcode: file[at],
        level: file[at + 1],
        operand: u16::from_le_bytes([file[at + 2], file[at + 3]]),
    }
}

// The instructions of tasks with these numbers of instructions, put into empty slots: they stand one
// behind the other.
pub fn read_code<'a>(file: &'a [u8], tasks: u8, lengths: &'a [u8; 64], codes: &'a mut [u32; 4096])
    requires { Whole file.now tasks lengths.now × (codes.old ≡ replicate 4096 0) }
    ensures { codes.new ≡ (canonical (programs_in file.now tasks lengths.now)).codes }
{
    let mut at: usize = 0;
    for k in 0..tasks as usize {
        for i in 0..lengths[k] as usize {
            codes[64 * k + i] = fetch(file, at).code();
            at += 4;
        }
    }
}
