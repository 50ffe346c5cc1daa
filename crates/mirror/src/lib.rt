// No code: the mirror of an input, byte by byte, and that it is settled as the input is, with positive and negative exchanged.

#![tactic(auto)]
