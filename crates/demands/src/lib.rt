// The demands: theorems about the definitions, and no function.
// The statements stand in specs/; proofs/ has a file for each demand, and the laws that they need below Lemmas.
#![tactic(auto)]
