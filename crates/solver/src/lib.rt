// A zone's system of heat balance equations: factored once, solved for many right sides; closeness and compensated sums.
#![tactic(auto)]

mod chain;
mod closeness;
mod dense_part;
mod error;
mod lu;
mod promised;
mod rows;
mod sums;
mod system;

pub use chain::Chains;
pub use closeness::{abs, close_in_demand, close_in_windows_test, isclose, within_state_bound};
pub use dense_part::RightSide;
pub use error::SolveError;
pub use lu::Lu;
pub use promised::promises;
pub use sums::Sum2;
pub use system::{Factors, Matrix, fast_solver};
