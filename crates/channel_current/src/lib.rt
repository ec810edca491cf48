// Demand 3, the channel: what its loaded conductances and jeq return, close to the formula's current. Definitions and laws, no function.
#![tactic(auto)]
