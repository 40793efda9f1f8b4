// That the walks listed outright (crate walked) give the figures that document 01 means. Laws only: proofs/.
#![tactic(auto)]
