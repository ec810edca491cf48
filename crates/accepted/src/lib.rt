// What an accepted card and an accepted geometry leave: definitions and laws, no function.
#![tactic(auto)]
