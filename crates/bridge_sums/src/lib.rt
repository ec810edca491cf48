// Definitions and laws alone: what an accepted load of a bridge or of a block means for each of its devices and for both slices.
#![tactic(auto)]
