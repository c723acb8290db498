// What the calls for C promise: definitions and theorems, no functions.
#![tactic(auto)]
