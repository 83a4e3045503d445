// Laws of selection: what is selected in the key of a layout is the key of the room that document 01 selects (proofs/).
#![tactic(auto)]
