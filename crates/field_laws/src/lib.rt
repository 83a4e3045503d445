// Laws of the field of a layout: no number of a place depends on the sign of a zero coordinate. No code.
#![tactic(auto)]
