// How texts and numbers are spelt as values, and what they read back as. Definitions and theorems only.
#![tactic(auto)]
