// Demand 3 of the written rules, one theorem, and what holds of a new list and of a converted one, in proofs/. No code.

#![tactic(auto)]
