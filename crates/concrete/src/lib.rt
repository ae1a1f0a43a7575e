// What the machine's answers mean: execution by the manual in specs/, the theorems in proofs/. No code.
#![tactic(auto)]
