// Who stays on the list, and as what: what an observer counts and was told and what the panel's records hold agree, so that a board leaves the list exactly with its third
// unanswered message in a row, and has the type of its last join in all that goes by types. Theorems over the definitions of the steps. There is no code here.
#![tactic(auto)]
