// What is printed of the calls that read literals (`reads`) and of those that write them (`writes`). Below them `lines` says what a line has,
// and `numbers` has integers from bytes, one or many.
#![tactic(auto)]

mod lines;
pub mod numbers;
pub mod reads;
pub mod writes;
