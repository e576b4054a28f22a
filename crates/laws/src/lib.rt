// General laws of lists and tests that the kit's library lacks, over any element, index or width. They have no code.
#![tactic(auto)]
