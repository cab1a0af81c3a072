// Factors on a card: the writing of a state as blocks of 512 bytes, which cards are refused, and the state that a card stands for. Definitions in specs/ and
// laws in proofs/, and no code.
#![tactic(auto)]
