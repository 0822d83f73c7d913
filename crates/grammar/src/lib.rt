// The grammar: definitions in specs/ and theorems about them in proofs/; the profiles, and no other code.
#![tactic(auto)]

pub mod profile;
