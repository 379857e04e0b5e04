// A step as a step file has it.
ghost use Rattle.std.specs.Prelude.{◌∷◌, [], ◌≡◌};
ghost use Rattle.rules.specs.StepFiles.{file_steps};

use rules::step::Step;

// A step as the four bytes of a step file.
pub fn step_bytes(s: Step) -> [u8; 4]
    ensures { file_steps result ≡ s ∷ [] }
{
    [
        s.kind,
        s.task,
        (s.number % 256) as u8,
        (s.number / 256) as u8,
    ]
}
