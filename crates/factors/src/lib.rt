// The factors that an update changes, in the storage that is lent to it; parts.rt has its parts.
#![tactic(auto)]

ghost use Rattle.std.specs.Prelude.{◌*◌, ◌^◌, ◌≤◌, ◌<◌, length};
ghost use Rattle.storage.specs.Places.{u_length};

mod parts;

// Factors of dimension n in lent storage of a stride, which has room for them. The stride is the capacity of the managed interface, and in the zero-based
// interface the larger of maxmod and 1.
#[derive(Drop)]
pub struct Factors<'a> {
    pub n: usize,
    pub stride: usize,
    pub l: &'a mut [f64],
    pub u: &'a mut [f64],
    pub ghost stride_fits: { stride < 2 ^ 32 },
    pub ghost dimension: { n ≤ stride },
    pub ghost l_long: { stride * stride ≤ length l.now },
    pub ghost u_long: { u_length stride ≤ length u.now },
}
