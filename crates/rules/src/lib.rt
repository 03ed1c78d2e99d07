// The rules of the taken functions, and the equations that they are instances of.
#![tactic(auto)]
