// Bytes put at a place of a lent output, and the instructions of a plan.

// Numbers of 8 and 16 bits.
pub mod bytes;
// The instructions of a plan, one behind the other.
pub mod code;
