// What a stream holds between its calls, and how bytes of a part come into its row.
#![tactic(auto)]

pub mod state;
pub mod taking;
