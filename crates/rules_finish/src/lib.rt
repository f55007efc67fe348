// `finalize_eq`, `finalize_eq_neighbors` and the turns: plans are carried out. The definitions stand in specs/.
#![tactic(auto)]
