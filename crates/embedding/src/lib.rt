// The rule: what a valid plan is and what it costs. Definitions in specs/, theorems in proofs/Theorems.antt. There is no code here.
#![tactic(auto)]
