// The definitions of `mixture`, and the types that they share with the code.
#![tactic(auto)]
