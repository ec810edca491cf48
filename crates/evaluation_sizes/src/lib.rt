// The sizes of what an accepted evaluation and an accepted commit take and leave: definitions and laws, no function.
#![tactic(auto)]
