// Laws of depressurize over its definition (`rules_depressurize`): each turf is visited once at most, and 84N event bytes are room enough. No code.
#![tactic(auto)]
