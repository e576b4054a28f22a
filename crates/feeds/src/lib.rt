// Whole feeds as bytes: the entries that are read of them, and what a replay of them prints. Definitions and promises alone.
#![tactic(auto)]
