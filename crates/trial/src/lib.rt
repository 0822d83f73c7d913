// No code: the definitions of the crate grammar, tried on an eighth of the fixed list's walks.
#![tactic(auto)]
