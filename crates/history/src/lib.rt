// Demand 3: what a list of requests does in another order. Theorems over the rules: no code.
#![tactic(auto)]
