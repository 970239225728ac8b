// The tie between what a read keeps and the names by the words of the paper: theorems, and no function.
#![tactic(auto)]
