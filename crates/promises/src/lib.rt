// No code: what the library promises, as theorems about the definitions and about the contracts of the public calls.
#![tactic(auto)]
