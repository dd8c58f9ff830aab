// What an accepted request adds to sound books, and that they stay sound: laws over the rules, and no code.
#![tactic(auto)]
