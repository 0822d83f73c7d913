// What the calls of a stream say in all, however a text is parted: the definitions in specs/, the theorems in proofs/; no code.
#![tactic(auto)]
