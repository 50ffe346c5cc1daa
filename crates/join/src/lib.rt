// No code: two runs that a block joins, and the one run over both, proved of all accepted inputs.

#![tactic(auto)]
