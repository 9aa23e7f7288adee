// The class sheet of a finished list: what holds of it is stated in specs/ and proved in proofs/. There is no code.
#![tactic(auto)]
