// The managed interface as definitions in specs/ and laws in proofs/, and no function: refusals, the outcome of a call, and demands 1 and 3 as theorems, the
// latter about lists. It stands beside the meaning of api.rs.
#![tactic(auto)]

// The lengths of what an update is lent: L, U and the three workspaces.
#[derive(Clone, Copy, Debug, PartialEq, Eq)]
pub struct LentLengths {
    pub l: usize,
    pub u: usize,
    pub y: usize,
    pub z: usize,
    pub w: usize,
}
