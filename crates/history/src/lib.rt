// Demand 3: one theorem over every list of calls, on bytes. The statement is specs/Demand3.antt. No code.
#![tactic(auto)]
