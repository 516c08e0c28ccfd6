// What the library promises, in the paper's order: statements, in proofs/. There is no code.

#![tactic(auto)]
