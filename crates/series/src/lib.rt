// The partial sums of the exponential series at exact fractions: definitions and laws only, no function.
#![tactic(auto)]
