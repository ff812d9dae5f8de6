// Every public call has one outcome. There is no code here: specs/ says what that means, proofs/ has it call by call.

#![tactic(auto)]
