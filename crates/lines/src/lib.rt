// Laws of the lines of a journal: the reader takes exactly the lines that are written of requests that pass test 3, a journal is read back as its requests, and each line has the number that a person counts. No code stands here.
#![tactic(auto)]
