// Simplified AES, the bench model for apprentices: every 16-bit key and block is valid, so no call refuses.
#![tactic(auto)]

mod nibbles;
mod steps;

ghost use Rattle.std.specs.Prelude.{◌≡◌};
ghost use Rattle.saes_spec.specs.Saes.{encrypted, decrypted};

use crate::nibbles::{INV_S, S};
use crate::steps::{
    add_round_key, mix_columns, round_keys, shift_rows, state_of, states, substituted,
};
use saes_spec::States;

// The state after each key addition: the last one is the ciphertext. The second round is not mixed.
pub fn encrypt(key: u16, block: u16) -> States
    ensures { result ≡ encrypted key block }
{
    let keys = round_keys(key);
    let first = add_round_key(keys.first, state_of(block));
    let shifted = shift_rows(substituted(&S, first));
    let second = add_round_key(keys.second, mix_columns(1, 4, shifted));
    let third = add_round_key(keys.third, shift_rows(substituted(&S, second)));
    states(first, second, third)
}

// The state after each key addition of decryption: the last one is the plaintext. The first round begins without unmixing. A row of two
// is turned back as it was turned.
pub fn decrypt(key: u16, block: u16) -> States
    ensures { result ≡ decrypted key block }
{
    let keys = round_keys(key);
    let first = add_round_key(keys.third, state_of(block));
    let second = add_round_key(keys.second, substituted(&INV_S, shift_rows(first)));
    let unmixed = mix_columns(9, 2, second);
    let third = add_round_key(keys.first, substituted(&INV_S, shift_rows(unmixed)));
    states(first, second, third)
}
