// Demand 3 is about every series of steps, so it is stated over the definitions of the steps: specs/Series.antt says what a series is and
// what an observer sees of it, specs/Demand.antt has the demand's sentences. There is no code here.
#![tactic(auto)]
