// Calls for timing: bench/massey_bench.h. All but `massey_format_word` load an image on a new machine, put
// one of the machine's calls to work so many times, and answer a number that shows what was done.
#![tactic(auto)]

mod machine;
mod texts;
mod undo;
