// Laws of the arrows of depressurize (`rules_depressurize`, setting `arrows`): the two settings differ in them alone, and those towards space lead there. No code.
#![tactic(auto)]
