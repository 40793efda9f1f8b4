// Every worksheet, board and question on a map and on the map sorted (crate sorted_graph). Laws only: proofs/.
#![tactic(auto)]
