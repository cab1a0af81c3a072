// The pair step of the updates, and its application to a further pair.
ghost use Rattle.std.specs.Prelude.{◌≡◌};
ghost use Rattle.std.specs.Float.{binary64};
ghost use Rattle.numbers.specs.NumberForm.{ieee};
ghost use Rattle.numbers.specs.PairStep.{Stepped, first, second};

use crate::real::abs;
use std::mem::swap;

// What a pair step found: whether the two are exchanged, and what multiple of the first is added to the second. Document 01 has it as a flag and a number.
#[derive(Clone, Copy, Debug, PartialEq)]
pub struct Transform {
    pub swap: bool,
    pub multiplier: f64,
}

impl Transform {
    // It leaves every pair as it is.
    const IDENTITY: Transform = Transform {
        swap: false,
        multiplier: 0.0,
    };
}

// The pair step on x and y, with T.
pub fn elementary(x: &mut f64, y: &mut f64, tiny: f64) -> Transform
    ensures { Stepped binary64 tiny x.old y.old x.new y.new result.swap result.multiplier }
{
    let size_x = abs(*x);
    let size_y = abs(*y);
    let transform = if size_x >= size_y {
        if size_x <= tiny {
            *x = 0.0;
            Transform::IDENTITY
        } else {
            Transform {
                swap: false,
                multiplier: -*y / *x,
            }
        }
    } else if size_y <= tiny {
        *x = 0.0;
        Transform::IDENTITY
    } else {
        let multiplier = -*x / *y;
        *x = *y;
        Transform {
            swap: true,
            multiplier,
        }
    };
    *y = 0.0;
    transform
}

// A transform applied to a further pair: two roundings, the product's and the sum's.
pub fn apply_pair(x: &mut f64, y: &mut f64, transform: Transform)
    ensures { (x.new ≡ first (ieee binary64) transform.swap x.old y.old)
        × (y.new ≡ second (ieee binary64) transform.swap transform.multiplier x.old y.old) }
{
    if transform.swap {
        swap(x, y);
    }
    if transform.multiplier != 0.0 {
        *y += transform.multiplier * *x;
    }
}
