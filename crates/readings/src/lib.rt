// What has been read of a lexeme: as little as tells whether it is one and whether it can still grow.
#![tactic(auto)]

pub mod reading;
pub mod tells;
