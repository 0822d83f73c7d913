// What the calls that read and write literals do together: the theorems in proofs/; no code.
#![tactic(auto)]
