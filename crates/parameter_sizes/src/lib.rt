// The sizes and signs of every parameter after accepted calls: definitions and laws, no function.
#![tactic(auto)]
