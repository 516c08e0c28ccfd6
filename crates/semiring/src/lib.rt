// The source's definitions of provenance: in specs/. There is no code.

#![tactic(auto)]
