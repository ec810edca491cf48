// Laws alone: no load on the pattern of a device's cells misses one.
#![tactic(auto)]
