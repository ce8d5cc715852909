// Which taken sectors open the session, over the definitions: nothing runs here.

#![tactic(auto)]
