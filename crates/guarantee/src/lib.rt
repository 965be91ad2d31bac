#![tactic(auto)]
// Demand 3 and the starred cases (document 01): statements in specs/, theorems in proofs/. No code stands here.
