// Demand 1 along every list of calls, over the definitions: nothing runs here.

#![tactic(auto)]
