// A panel that was started well stays fit, whatever comes: theorems over the definitions of the steps. There is no code here.
#![tactic(auto)]
