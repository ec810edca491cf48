// Lists of calls on a fresh device: definitions and laws, no function.
#![tactic(auto)]
