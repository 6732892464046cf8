#![tactic(auto)]

// What writing and reading a DSK image are proved to be to each other: specs/Theorems.antt states it. No code needs these proofs.
