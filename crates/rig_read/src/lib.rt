// A rig in lent bytes: its parts read, and whether it is refused by 9.
#![tactic(auto)]

// Whether a rig is refused by 9, and its bytes are an image.
pub mod check;
// Letters of two numbers, and back.
pub mod letters;
// Numbers in bytes.
pub mod numbers;
// The parts of a rig read.
pub mod parts;
