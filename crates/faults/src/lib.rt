// Ticket 1, "the exact byte: the one after the last for a cut item, else the first that cannot stand", as a statement about accepted bodies.
// It is about the definitions that the readers are proved to be, so here are theorems and no code.
#![tactic(auto)]
