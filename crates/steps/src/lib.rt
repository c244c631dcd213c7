// The steps of a run as they are read: a step carries its Pauli and its floats, a read the step and
// the cursor behind it. Types, no functions.
#![tactic(auto)]

pub mod tag;

use activepauli::ActivePauli;

// Where the next field's tag stands in the run, and the width of the state there.
#[derive(Clone, Copy)]
pub struct Cursor {
    pub at: usize,
    pub width: usize,
}

// A rotation has its Pauli, sign, c and s; a promotion c and q; a projection its Pauli, pivot, branch
// and invnorm; a correction its Pauli, and so has a quarter turn, the rotation with sign 0 whose c and s
// are both 1/sqrt 2.
#[derive(Clone, Copy)]
pub enum Step {
    Rotation(ActivePauli, bool, f64, f64),
    Promotion(f64, f64),
    Projection(ActivePauli, usize, bool, f64),
    Correction(ActivePauli),
    QuarterTurn(ActivePauli),
}

// What a read gives where no row refuses it: a step or the end field, each with the cursor behind it.
#[derive(Clone, Copy)]
pub enum Read {
    Step(Step, Cursor),
    End(Cursor),
}
