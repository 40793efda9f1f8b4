// What the rounds and the runs in code (crate rounds) are worth: figures over walks, the smallest number of rounds. Laws only: proofs/.
#![tactic(auto)]
