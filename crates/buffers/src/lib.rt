// What is answered of a result that goes into a lent buffer.
#![tactic(auto)]

pub mod written;
