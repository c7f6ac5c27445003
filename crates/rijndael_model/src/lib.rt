// No code but a type: the wide cipher by lookups on a list of columns, and that over the right tables it is the submission's.
#![tactic(auto)]

// The way through the rounds: encryption goes forth, decryption back.
#[derive(Clone, Copy)]
pub enum Way {
    Forth,
    Back,
}
