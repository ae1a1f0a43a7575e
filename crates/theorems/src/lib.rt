// Theorems about the public answers, on definitions alone: what runs of blocks and nodes do, and that no answer goes against one.
#![tactic(auto)]
