// Laws of filling over its definition (`rules_fill`): what is found and owned is counted, an edge joins nodes of its zone, a fill comes to rest. No code.
#![tactic(auto)]
