// Exact arithmetic for the error bounds of the other crates: definitions and laws only, no function.
#![tactic(auto)]
