// No function: the theorems of what an added entry may change (docs/PUSHING.md).
#![tactic(auto)]
