// The definitions of `way_back`, and the types that they share with the code.
#![tactic(auto)]
