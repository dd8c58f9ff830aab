// Document 02, K7: the totals kept beside a position stay as true as they were, and from empty tables they are true. Theorems over the rules: no code.
#![tactic(auto)]
