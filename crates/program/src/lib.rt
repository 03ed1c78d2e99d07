// What the program `simplify` prints, line by line.
#![tactic(auto)]
