// Worked cases of the Level-1 definition: a theorem in proofs/, no function.
#![tactic(auto)]
