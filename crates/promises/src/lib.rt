// What the public promises come to, for a reader: the theorems stand in proofs/.
#![tactic(auto)]
