// The definitions of `lent`, and the types that they share with the code.
#![tactic(auto)]
