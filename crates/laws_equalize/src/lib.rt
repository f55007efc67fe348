// Laws of equalize over its definition (`rules_equalize`): demand 3, room, clock tests, what a kept zone has. No code.
#![tactic(auto)]
