// The number form, the tolerances and the pair step as definitions in specs/ and laws in proofs/, and no code.
#![tactic(auto)]
