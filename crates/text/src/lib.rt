// Whole numbers in decimal, and fields parted by tabs, in a text of bytes (document 02, K5): definitions and their laws. Decimal and Fields say how they are written, Scan how they are read. No code stands here.
#![tactic(auto)]
