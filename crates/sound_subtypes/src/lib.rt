//! What is found of subtype indications and of definitions of types has a modulus from 2 to 2^64, where it has any (Ada RM 3.5.4).
#![tactic(auto)]

mod laws;

pub use laws::moduli_are_sound;
