// The earlier block format in definitions, with their cases and laws: row codec V0, block V1. They have no code; every crate of this format stands on them.
#![tactic(auto)]
