// The netlist that an ASCII AIGER text describes.
#![tactic(auto)]
