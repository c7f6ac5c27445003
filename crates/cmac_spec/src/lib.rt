// No code: CMAC of SP 800-38B over any block cipher, and its laws.
#![tactic(auto)]
