// No code: definitions and laws of bytes, words and lists of bytes, which every other crate cites.
#![tactic(auto)]
