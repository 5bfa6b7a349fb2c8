// The and-inverter graphs of AIGER files and of records.
#![tactic(auto)]
