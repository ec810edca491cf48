// Demand 3 for a bulk junction, over plain floats: definitions and laws, no function.
#![tactic(auto)]
