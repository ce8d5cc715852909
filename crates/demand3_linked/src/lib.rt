// Demand 3 of the calls that a firmware links, one after the other. Nothing runs.

#![tactic(auto)]
