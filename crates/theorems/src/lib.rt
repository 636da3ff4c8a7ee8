// The demands as theorems (proofs/Demands.antt), and the worked cases as one table with one theorem (specs/Cases.antt, proofs/Cases.antt). There is no code here.
#![tactic(auto)]
