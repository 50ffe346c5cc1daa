// No code: what is true of every recording that is mended, and that an accepted one settles.

#![tactic(auto)]
