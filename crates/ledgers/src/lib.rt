// Ledgers: what the calls of a run are answered by the rules, and what a run and its file are after any calls.
#![tactic(auto)]
