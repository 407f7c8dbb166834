// Theorems about the written rules, in proofs/. No code.

#![tactic(auto)]
