// Laws of planning over its definition (`rules_plan`): sizes stay, and a search comes to rest. No code.
#![tactic(auto)]
