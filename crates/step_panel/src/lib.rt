// What a C program calls for the lamps of a step panel. It is a crate beside `driver`, so that the compiler makes each archive's
// functions for its own callers alone.
#![tactic(auto)]

// The step panel after a step file.
pub mod panel_counts;
