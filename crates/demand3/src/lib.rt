// Demand 3 as one claim about a whole series of calls.
#![tactic(auto)]
