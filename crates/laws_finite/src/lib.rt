// On an accepted board every weight that planning makes, every amount that is written and all gas stays finite, so what a call writes is read back. No code.
#![tactic(auto)]
