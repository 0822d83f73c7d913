// Numbers for C of what a stream's state has: its phase and its reading.
#![tactic(auto)]

pub mod phases;
pub mod so_far;
