// Definitions and laws alone: the bounds of every device that a list of calls can leave.
#![tactic(auto)]
