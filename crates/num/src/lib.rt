// Counts that go round: the definition stands in specs/.

#![tactic(auto)]
