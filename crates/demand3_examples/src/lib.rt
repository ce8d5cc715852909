// One file in lists of calls, computed. Nothing runs.

#![tactic(auto)]
