// Each listed board has its turn, and within how many steps; and the panel is never stuck: theorems over the definitions of the steps.
// There is no code here.
#![tactic(auto)]
