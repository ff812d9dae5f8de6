// The crate and this port: the same OBU list and plan, and the same headers and payloads but for N and size fields. There is no code
// here: specs/ has the crate's functions in its own order, and the statements; proofs/ has the theorems.

#![tactic(auto)]
