// No code: the laws of blocks are in specs/.
#![tactic(auto)]
