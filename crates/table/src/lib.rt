// The attribute table, and what a reading says by it: definitions only, in specs/.
#![tactic(auto)]
