// Laws of how rows lie in a lent table, over any width: no code.
#![tactic(auto)]
