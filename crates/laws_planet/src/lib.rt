// Laws of the planet walk over its definition (`rules_planet`): each turf is visited once at most, and 12N event bytes are room enough. No code.
#![tactic(auto)]
