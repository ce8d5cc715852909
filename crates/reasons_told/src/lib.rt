// What is kept up from call to call is what demand 3 says of the calls. Nothing runs.

#![tactic(auto)]
