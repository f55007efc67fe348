// Laws of finishing over its definition (`rules_finish`): depth, order, room, the second slice. No code.
#![tactic(auto)]
