// The verdict on a request, and laws of what the rules answer, in the shape in which code meets them: no code of its own. The code's verdict is a `Result`, whose error says why.
#![tactic(auto)]
