// No code: the key wrap of RFC 3394 over any block cipher, and its laws.
#![tactic(auto)]
