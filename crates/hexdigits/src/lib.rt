// Digits of literals: what a digit stands for, and the digit that stands for a number.
#![tactic(auto)]

pub mod digits;
