// Definitions of loops over numbers and of searches, and their laws. Nothing runs here.

#![tactic(auto)]
