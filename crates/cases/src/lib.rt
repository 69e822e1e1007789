// The bench cases of document 01 (specs/Bench.antt): a list over the definitions of the crates below, and no code.
#![tactic(auto)]
