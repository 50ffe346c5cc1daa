// No code: what a check of an operator's shares says of an input, over lists alone. See specs/.

#![tactic(auto)]
