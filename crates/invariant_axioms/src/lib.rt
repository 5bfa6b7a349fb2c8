// The laws of one step of the circuit, as axioms for a refutation: the caller asks for those that it needs, and each holds in every step by itself. No code.
#![tactic(auto)]
