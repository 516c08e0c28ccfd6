// The theory of a table: definitions and theorems, in specs/. There is no code.

#![tactic(auto)]
