#![tactic(auto)]

// The worked examples of the rules, proved of the definitions: specs/Table.antt is the table, proofs/Starred.antt its one proof.
