// The writings of small states, byte for byte: computed lines in specs/, and no code. They take longer to compute than all of card_format, and so stand apart.
#![tactic(auto)]
