// The factors in lent storage, to be read: entries, rows and columns.
#![tactic(auto)]

pub mod dense_l;
pub mod packed_u;
