// SQLite's pages beside the grammar: their definitions in specs/ and how the classes relate to them in proofs/; no code.
#![tactic(auto)]
