// What is proved, chapter by chapter. There is no code here: specs/ has the statements that no crate below names, proofs/ cites each theorem.

#![tactic(auto)]
