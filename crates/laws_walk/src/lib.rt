// Laws of the walks over their definitions (`rules_walk`, `rules_out`, `rules_back`): no turf joins twice, a walk comes to rest, which place it is at, what the
// way back tells of a turf. No code.
#![tactic(auto)]
