// The plain machine of the factor updates: definitions in specs/ and laws in proofs/, and no code. It stands beside the meaning of algorithm.rs.
#![tactic(auto)]
