// The definitions of `turfs`, and the types that they share with the code.
#![tactic(auto)]
