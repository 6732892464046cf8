#![tactic(auto)]

// The claim about every sequence of calls (S), proved of the definitions: specs/Book.antt is the book of a sequence of calls, specs/Claim.antt the claim about every sequence,
// proofs/EverySequence.antt its proof.
