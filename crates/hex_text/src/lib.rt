// Floats as text, for the programs: the 64 bits in sixteen hexadecimal digits.
#![tactic(auto)]

mod read;
mod write;

pub use read::{bits_at, digit, float_of};
pub use write::{put_number, put_text};
