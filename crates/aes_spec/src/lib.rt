// No code: AES by the text of FIPS 197, over any number of columns, and that decrypting undoes encrypting and the reverse.
#![tactic(auto)]
