// Numbers as the table shows them.
use refusals::Refusal;
use std::fmt;

// A double: NaN, an infinity, or its value to thousandths where that lies within 2^-10 and 2^20; otherwise its bits without the sign.
#[derive(Clone, Copy)]
pub struct Double(pub f64);

impl fmt::Display for Double {
    fn fmt<W: fmt::Write>(&self, f: &mut fmt::Formatter<W>) -> fmt::Result {
        let x = self.0;
        if x.is_nan() {
            return write!(f, "NaN");
        }
        if x.is_sign_negative() {
            write!(f, "-")?;
        }
        let size = x.abs();
        if size == 0.0 {
            write!(f, "0")
        } else if size == f64::INFINITY {
            write!(f, "infinity")
        } else if size >= 1.0 / 1024.0 && size < 1048576.0 {
            write!(f, "{size:.3}")
        } else {
            write!(f, "bits {:016x}", size.to_bits())
        }
    }
}

// Two doubles.
#[derive(Clone, Copy)]
pub struct Pair(pub [f64; 2]);

impl fmt::Display for Pair {
    fn fmt<W: fmt::Write>(&self, f: &mut fmt::Formatter<W>) -> fmt::Result {
        let [first, second] = self.0;
        write!(f, "({}, {})", Double(first), Double(second))
    }
}

// What a refused call answers: the refusal's number, and its index where it has one.
#[derive(Clone, Copy)]
pub struct Refused(pub Refusal);

impl fmt::Display for Refused {
    fn fmt<W: fmt::Write>(&self, f: &mut fmt::Formatter<W>) -> fmt::Result {
        write!(f, "refused {}", u32::from(self.0))?;
        match self.0.index() {
            Some(i) => write!(f, " at {i}"),
            None => Ok(()),
        }
    }
}
