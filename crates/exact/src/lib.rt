// Specifications only: readers that are exact against a language stand in specs/.
#![tactic(auto)]
