// The finish check: a plan is run on one desk to rest, and what is stuck there is told.
#![tactic(auto)]

// The answer of a plan from its start: run, verdict, list.
mod answer;
// The check of a plan file.
pub mod file;
// The lines of the answer.
mod lines;
// Which task can run.
mod search;
// The run to rest.
mod settle;
// Which task is stuck, and on which other.
mod stuck;
