// Demand 3 and the proved examples: theorems about the calls of the rooms below, and no code.
#![tactic(auto)]
