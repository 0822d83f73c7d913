// Brackets in a list of kinds, which `pairs` pairs: the definition in specs/, the laws in proofs/; no code.
#![tactic(auto)]
