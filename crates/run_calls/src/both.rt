// The frame theorem on one run, Pauli and state, for either caller: the Pauli fired and then the run, against the carried run and
// then the end Pauli fired. The buffers of the two sides differ past the given entries, which plays no part.
ghost use Rattle.std.specs.Prelude.{◌≤◌};

use crate::write;
use activepauli::ActivePauli;
use callers::Caller;
use pauli_calls::show;
use refusals::Refusal;
use runner::Finished;

// A state's floats.
#[derive(Drop)]
pub(crate) struct State {
    pub(crate) re: [f64; 160],
    pub(crate) im: [f64; 160],
}

impl State {
    // The given floats, as far as there is room, and `beyond` past them.
    pub(crate) fn of(re: &[f64], im: &[f64], beyond: f64) -> State {
        State {
            re: filled(re, beyond),
            im: filled(im, beyond),
        }
    }

    fn fire(&mut self, pauli: ActivePauli) {
        let _ = correction::correct_contiguous_active(&mut self.re, &mut self.im, pauli);
    }

    pub(crate) fn run(&mut self, run: &[u8], caller: Caller) -> Result<Finished, Refusal> {
        let mut scratch = State {
            re: [0.0; 160],
            im: [0.0; 160],
        };
        runner::run_contiguous(
            run,
            &mut self.re,
            &mut self.im,
            &mut scratch.re,
            &mut scratch.im,
            caller,
        )
    }
}

fn filled(floats: &[f64], beyond: f64) -> [f64; 160] {
    let mut space = [beyond; 160];
    for (to, float) in space.iter_mut().zip(floats) {
        *to = *float;
    }
    space
}

pub(crate) fn carried(
    run: &[u8],
    pauli: ActivePauli,
    re: &[f64],
    im: &[f64],
    caller: Caller,
) -> Option<()> {
    let mut space = run_text::room(0);
    let out = space.get_mut(..run.len())?;
    match carrier::carry_run(run, pauli, out, caller) {
        Ok(end) => {
            let mut left = State::of(re, im, 0.0);
            left.fire(pauli);
            let ran = left.run(run, caller);
            against(ran, &left, out, end, re, im, caller);
        }
        Err(refusal) => show::refused(refusal),
    }
    Some(())
}

// One side that has been run, against a run from the same floats and then a Pauli fired.
pub(crate) fn against(
    ran: Result<Finished, Refusal>,
    left: &State,
    run: &[u8],
    end: ActivePauli,
    re: &[f64],
    im: &[f64],
    caller: Caller,
) {
    match ran {
        Ok(finished) => {
            let mut right = State::of(re, im, 7.0);
            let _ = right.run(run, caller);
            right.fire(end);
            write::sides(dimension(finished.width), left, &right);
        }
        Err(refusal) => show::refused(refusal),
    }
}

// 2^width, at most 160.
fn dimension(width: usize) -> usize
    ensures { result ≤ 160 }
{
    if width < 8 {
        (1usize << width).min(160)
    } else {
        160
    }
}
