// How buffers stand for the machine's tables, and what it is to perform a step of the machine on buffers: definitions and laws, and no code.
#![tactic(auto)]
