// Definitions and laws alone: a list of calls that meets every premise of demand 3, computed.
#![tactic(auto)]
