// The step figure: a weight that falls with each changing step.
#![tactic(auto)]
