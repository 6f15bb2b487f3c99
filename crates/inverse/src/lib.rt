// Demand 2, "a written sequence reads back as exactly the items it was written from", for whole sequences, both ways round. It is about
// the definitions that the readers and writers are proved to be, so here are theorems and no code.
#![tactic(auto)]
