// What the columns of a table mean: the hypergraph that they hold. There is no code.

#![tactic(auto)]
