#![tactic(auto)]

// What the definitions of flux are proved to mean together: specs/Theorems.antt states it. No code needs these proofs.
