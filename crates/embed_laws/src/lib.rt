// No code: the laws of the library's calls are in specs/.
#![tactic(auto)]
