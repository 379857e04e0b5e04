// A run: the steps of a file, and a step file from the start of a plan.
#![tactic(auto)]

// The loop: it decodes a step, takes a letter out, carries the step out, posts, and writes the line.
pub mod all_steps;
// The run over a plan file and a step file: start, loop, the lines behind those of the steps.
pub mod file;
// Lines written one behind the other, as long as they fit.
pub mod lines;
