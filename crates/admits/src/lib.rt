// Which sectors the rules admit, over the definitions: nothing runs here.

#![tactic(auto)]
