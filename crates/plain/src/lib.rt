// Demand 3, "each readable track can be turned into one plain sequence that plays the same messages, in the same order, at the same steps,
// with the same end". It is about the definitions that the operations are proved to answer, so here are theorems and no code.
#![tactic(auto)]
