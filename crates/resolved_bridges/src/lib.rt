// Laws alone (proofs/Bridges): a bridge's load by the cells that were looked up for its devices in a pattern is its load on that pattern.
#![tactic(auto)]
