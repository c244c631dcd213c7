// How two answers compare.
use std::cmp::max;

// In order, so that the greater of two holds for both.
#[derive(Clone, Copy, PartialEq, Eq, PartialOrd, Ord)]
pub(crate) enum Likeness {
    Same,
    BothNan,
    Differ,
}

impl Likeness {
    pub(crate) fn of_equal(equal: bool) -> Likeness {
        if equal {
            Likeness::Same
        } else {
            Likeness::Differ
        }
    }

    // The same number has equal bits, or is zero twice.
    pub(crate) fn of_floats(a: f64, b: f64) -> Likeness {
        if a.is_nan() & b.is_nan() {
            return Likeness::BothNan;
        }
        Likeness::of_equal(a == b)
    }

    pub(crate) fn and(self, other: Likeness) -> Likeness {
        max(self, other)
    }
}
