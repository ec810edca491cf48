// The elementary functions: one name for each function of the crates below.
#![tactic(auto)]

pub use exponential::exp;
pub use logarithm::{ln, ln_1p};
pub use power::{fractional_powers, pow, powers};
pub use square_root::sqrt;
