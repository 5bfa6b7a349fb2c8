// The sheet of a netlist, as a text.
#![tactic(auto)]
