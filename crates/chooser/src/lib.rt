// What a C program calls whose crews don't choose steps: the dispatchers' choice of a whole show. It is a crate beside `driver`, so that
// the compiler makes each archive's functions for its own callers alone.
#![tactic(auto)]

// The steps that dispatchers choose.
pub mod choice;
