// The cases that the rule book marks with a star, as one table (specs/Cases.antt), and the theorem that the definitions give all of them
// (proofs/Theorem.antt). There is no code here.
#![tactic(auto)]
