// The bytes of terms as trees, and the exactness of their reader: specs/ and proofs/. No code.
#![tactic(auto)]
