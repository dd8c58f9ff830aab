// The journal of a day, replayed: the rows that the day ended with; what the writing calls write is that journal; and what a replay's answer says of the lines of its text (document 02, K5). No code stands here.
#![tactic(auto)]
