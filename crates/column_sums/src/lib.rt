// What a load's contributions sum to, and which entries they reach: definitions and laws, no function.
#![tactic(auto)]
