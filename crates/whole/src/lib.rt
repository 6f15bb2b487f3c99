// Ticket 3 as theorems, and no code: a written file reads back as exactly what it was written from, and a file that was read is written as the same bytes
// (proofs/).
#![tactic(auto)]
