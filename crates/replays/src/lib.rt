// Replaying another scheduler's order through the macroblock call. There is no code here: `specs` says what comes of a replay, and `proofs` shows it.
#![tactic(auto)]
