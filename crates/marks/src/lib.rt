// What a write does to a file's marks, over the definitions: nothing runs here.

#![tactic(auto)]
