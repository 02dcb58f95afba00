// A machine's past, and its bus counters over it. There is no code here: definitions, and theorems about the calls of
// `vm`.
#![tactic(auto)]
