// Right sides as patterns: definitions and laws. `programs` and `parts` have the code.
#![tactic(auto)]
