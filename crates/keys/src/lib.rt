// Laws of keyed tables, over any row: no code.
#![tactic(auto)]
