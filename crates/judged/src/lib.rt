// Random boards with the Rust's answers, which the checker computes by the definitions. There is no code here.
#![tactic(auto)]
