// How far a lexeme looks ahead: the numbers in specs/, that they are enough and none too many in proofs/; no code.
#![tactic(auto)]
