// Numbers 8, 9 and 10, and the type of an expression: definitions and laws. `binding` (8), `claims` and `identifiers` (9), `type_rules`,
// `results`, `patterns` and `synthesis` (10) have the code, and `checking` puts it together.
#![tactic(auto)]
