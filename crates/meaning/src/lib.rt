// What a predicate means: its truth in an interpretation.
#![tactic(auto)]
