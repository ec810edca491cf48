// How near a loaded charge branch comes to its method's exact current: definitions and laws, no function.
#![tactic(auto)]
