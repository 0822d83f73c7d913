// Rows of bytes that the programs lend: what is printed is gathered in one (`out`), and what is read stands in another (`input`).
#![tactic(auto)]

pub mod input;
pub mod out;
