// Numbers as decimal texts: the definition is in specs/, its laws in proofs/. There is no code.
#![tactic(auto)]
