#![tactic(auto)]

// What the definitions of validating, asking and speeds are proved to mean: specs/Theorems.antt states it. No code needs these proofs.
