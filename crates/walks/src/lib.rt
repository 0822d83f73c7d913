// A walk of Next over a text, which `lists`, `cuts` and `parting` share: the definition in specs/, the laws in proofs/; no code.
#![tactic(auto)]
