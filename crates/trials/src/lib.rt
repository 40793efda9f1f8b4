// The marked trials of document 01, computed from the definitions: specs/ and proofs/. No code.
#![tactic(auto)]
