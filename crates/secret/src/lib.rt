// The definitions and the laws of the report. There is no code here, so that the laws, demand 3 among them, are
// proved in seconds; the code is in `report`.
#![tactic(auto)]
