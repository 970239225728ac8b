// What aq_write wrote is read back at the C boundary: theorems over what the exported calls leave, and no function.
// A crate of its own over `roundtrip` and `demands`, so that neither of those waits for the other. The statements are in specs/Demand.
#![tactic(auto)]
