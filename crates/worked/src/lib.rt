// Document 01's "Figures to check by hand": one table of examples, with one statement over the rules. No code; `worked_main` runs the same figures.
#![tactic(auto)]
