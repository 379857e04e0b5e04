// A run over a step file: the steps decoded, each carried out, each line written, and those behind them.

// The steps of an accepted plan and step file, from the start to the last line.
mod drive;
// The lines behind those of the steps: the marked tasks, and the last.
mod last;
// The refusals of a run, then its steps.
pub mod run;
