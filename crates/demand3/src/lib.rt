// Demand 3: one theorem about every list of calls. Nothing runs.

#![tactic(auto)]
