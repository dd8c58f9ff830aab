// A merge keeps the margin, and negated prices negate its average and residual: definitions and laws over the rules, and no code.
#![tactic(auto)]
