// Demand 1 of the calls beside `write`, over the definitions: nothing runs here.

#![tactic(auto)]
