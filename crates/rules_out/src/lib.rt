// The definitions of `way_out`, and the types that they share with the code.
#![tactic(auto)]
