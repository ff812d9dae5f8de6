// Laws of the payloads. There is no code here: specs/ has statements, and proofs/ the theorems.

#![tactic(auto)]
