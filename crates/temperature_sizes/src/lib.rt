// The sizes and signs of what the temperature functions give: laws only, no function.
#![tactic(auto)]
