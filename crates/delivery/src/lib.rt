// The theorems over two layers or more: statements in specs/, proofs in proofs/. There is no code.
#![tactic(auto)]

pub fn nothing() {}
