// That reading and writing undo each other: the theorems are in specs/.

#![tactic(auto)]
