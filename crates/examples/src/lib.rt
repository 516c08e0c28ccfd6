// The paper's examples: one list and one theorem, in specs/. There is no code.

#![tactic(auto)]
