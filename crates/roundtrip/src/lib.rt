// Reading what was written gives the same names back: theorems over the definitions of both, and no function.
// The statements are in specs/Demand and specs/Accepted, their proofs end in proofs/RoundTrip and, of the code, in
// proofs/Contracts.
#![tactic(auto)]
