// The judgement of what the kept tables say. Refusal 13 is given where that points outside.
#![tactic(auto)]

pub mod judgement;
