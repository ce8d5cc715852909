// Demand 1, over the definitions: nothing runs here.

#![tactic(auto)]
