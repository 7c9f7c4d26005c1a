// Numbers as decimal text, in units of their last place, and fractions.
#![tactic(auto)]

mod divisor;
mod fit;
mod fraction;
mod memory;
mod order;
mod plain;
mod put;
mod scaled;

pub use divisor::{divide, gcd, primitive, row_divisor};
pub use fit::{are_fit, fit_add, fit_mul, fit_sub};
pub use fraction::Frac;
pub use memory::Memory;
pub use order::compare_fractions;
pub use put::{put_frac, put_scaled, reads_back};
pub use scaled::{GREATEST_SIZE, NumFault, digits_len, read_scaled};
