// Document 02, K8: the reporting list has each reportable record once, and no other, in table order. Theorems over the rules: no code.
#![tactic(auto)]
