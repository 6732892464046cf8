#![tactic(auto)]

// What well-formed UTF-8 is proved to mean: specs/Theorems.antt states it. What an image must obey, in scp_open, is said by its `Text`.
