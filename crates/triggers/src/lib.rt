// Which semicolon ends a statement, by the kinds of the tokens before it: a trigger has semicolons inside.
#![tactic(auto)]

pub mod seen;
