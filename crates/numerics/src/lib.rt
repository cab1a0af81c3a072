// The arithmetic below the factors: absolute value and finiteness, the tolerances E and T, and the pair step.
#![tactic(auto)]

pub mod pair;
pub mod real;
pub mod tolerance;
