// Demand 3 of the calls that a program links. Definitions and laws alone: specs/Linked.antt has the claims.
#![tactic(auto)]
