// The exchange by which a board joins, what is on the wire, and that the panel takes what the rules allow: theorems over the definitions of the steps. There is no code here.
#![tactic(auto)]
