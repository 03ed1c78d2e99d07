// Each equation keeps the truth of a predicate.
#![tactic(auto)]
