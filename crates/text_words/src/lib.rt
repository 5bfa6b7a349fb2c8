// Lines and words of a text: definitions and their laws, for whatever reads a text of lines. Nothing to run.
#![tactic(auto)]
