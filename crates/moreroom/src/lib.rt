// More room changes nothing else (C-18): theorems about two runs over one block, and no function. The statements are in specs/.
#![tactic(auto)]
