// The names of a block by the words of the paper: definitions, and no function.
#![tactic(auto)]
