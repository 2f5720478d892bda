// Demand 3, and what is proved of builder and checker together. These are definitions and theorems, so there is no code here:
// specs/Demand.antt has the demand, specs/Theorems.antt the theorems.
#![tactic(auto)]
