// Short sheets as bytes in specs/, with the public answers for them, and in proofs/ that the definitions give these. No code.
#![tactic(auto)]
