// That a file longer than any legal one is judged by its first bytes as it is whole. Laws only: proofs/.
#![tactic(auto)]
