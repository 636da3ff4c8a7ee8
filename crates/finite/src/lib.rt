// Sums and tests over the numbers below n: definitions in specs/, laws in proofs/. There is no code here.
#![tactic(auto)]
