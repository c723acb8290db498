// Specifications only: the model of a reader of the grammar, and the theorems, stand in specs/.
#![tactic(auto)]
