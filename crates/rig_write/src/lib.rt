// A rig written into lent bytes.
#![tactic(auto)]

// Version, desks and plan file.
pub mod head;
// The two numbers of a letter.
mod letters;
// The mail in its bytes.
pub mod mail;
// Numbers, bytes and zeros put at a place.
pub mod numbers;
// The parts of a rig that a step can change.
pub mod parts;
// The sections of these parts.
mod sections;
