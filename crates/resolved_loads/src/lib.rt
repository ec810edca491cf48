// Laws alone (proofs/ResolvedLoads): a load by the cells that `resolve` answered for a pattern is the load on that pattern.
#![tactic(auto)]
