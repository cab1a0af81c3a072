// What the calls on cards refuse and leave, and a session that goes on from a card. Definitions in specs/ and laws in proofs/, and no code.
#![tactic(auto)]
