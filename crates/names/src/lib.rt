// What a name is, and a token of it: judged over what is lent and not written, or kept, which can't fail any more.
#![tactic(auto)]

pub mod judging;
pub mod keeping;

// What is judged of a name: how many rows and bytes it has.
#[derive(Clone, Copy)]
pub struct Size {
    pub rows: u32,
    pub length: u32,
}
