// What a C program calls before a show: whether a plan finishes, a plan with repeats converted, a chase written. It is a crate beside `driver`, so that
// the compiler makes each archive's functions for its own callers alone.
#![tactic(auto)]

// Whether a plan finishes.
pub mod finish_check;
// A plan with repeats converted.
pub mod conversion;
// A chase written.
pub mod chases;
