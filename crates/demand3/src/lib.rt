// Demand 3, what holds of the finished list that the five calls leave: its statement is in specs/, its proof in proofs/. There is no code.
#![tactic(auto)]
