// The sizes of a junction's depletion capacitance and charge: laws only, no function.
#![tactic(auto)]
