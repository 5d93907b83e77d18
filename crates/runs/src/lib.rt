// Runs of calls. There is no code here: specs/Runs.antt says what a run is, and proofs/Runs.antt what holds of every run.
#![tactic(auto)]
