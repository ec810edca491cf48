// Definitions and laws alone: demand 3, one claim about every list of calls.
#![tactic(auto)]
