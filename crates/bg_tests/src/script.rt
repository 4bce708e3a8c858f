//! Lines, commands, texts, and whole runs of `check` and `replay`: over memory, and over readers
//! and writers that are slow or fail.

mod before;
mod control;
mod input_lines;
mod large_inputs;
mod runs;
mod strategy_parts;
mod streams;
mod whole_lines;
