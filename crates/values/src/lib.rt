// Literals as C reads and writes them: a status, and the value or the number of bytes at a place that is lent.
#![tactic(auto)]

mod answers;
pub mod reading;
pub mod writing;
