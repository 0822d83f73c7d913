// A stream as C has it: its state is six numbers that the caller keeps, and an answer is a status and seven numbers.
#![tactic(auto)]

pub mod answers;
pub mod calls;
mod states;
