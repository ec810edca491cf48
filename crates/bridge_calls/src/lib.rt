// Definitions and laws of the loads of a block and of a bridge of devices that are records in a bank.
#![tactic(auto)]
