// The journal of request 9: its rules in specs/, its laws and the theorem on power cuts in proofs/. Knows no list. There is no code here.

#![tactic(auto)]
