// Definitions and laws alone: see `specs/`.
#![tactic(auto)]
