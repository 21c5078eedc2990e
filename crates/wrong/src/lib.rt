// Panels that are wrong, each ours with one change (specs/Wrong.antt), and for each the statement of demand 3 that it breaks (proofs/Refuted.antt):
// the statements shut out the errors that the rule book names. There is no code here.
#![tactic(auto)]
