// Lawful trains: definitions in specs/, and what holds of them in proofs/. There is no code.
#![tactic(auto)]

pub fn nothing() {}
