// Numbers for C: of profiles, of refusals and answers.
#![tactic(auto)]

pub mod answers;
pub mod profiles;
pub mod told;
