// The search in a run that was checked.
ghost use Rattle.std.specs.Prelude.{◌≡◌, true, ◌≤◌};
ghost use Rattle.answers.specs.Answer.{is_accepted};
ghost use Rattle.amplitudelaws.specs.Step.{last_width};
ghost use Rattle.callers.specs.Meaning.{limits_of};
ghost use Rattle.framelaws.specs.Caller.{widest_run};
ghost use Rattle.runlaws.specs.OnStart.{run_in};
ghost use Rattle.runlaws.specs.Run.{run_of};

use crate::elimination;
use crate::mask_word::{mask_word, with_masks};
use activepauli::ActivePauli;
use callers::Limits;
use refusals::Row;
use steps::{Cursor, Read};

// The mask bits of a start on 12 qubits.
const MOST_BITS: usize = 24;

// The run and what it is read under, and its widths, which are so small that the masks at both ends fit into one
// word.
#[derive(Clone, Copy)]
pub(crate) struct Search<'a> {
    pub(crate) run: &'a [u8],
    pub(crate) limits: Limits,
    pub(crate) width: usize,
    pub(crate) last: usize,
    ghost read: { is_accepted (run_of (limits_of limits) run.now) ≡ true },
    ghost begins: { width ≡ (run_in (limits_of limits) run.now).width },
    ghost ends: { last ≡ last_width width (run_in (limits_of limits) run.now).steps },
    ghost width_narrow: { width ≤ widest_run },
    ghost last_narrow: { last ≤ widest_run },
}

impl Search<'_> {
    ghost use Rattle.std.specs.Prelude.{not, ◌+◌, ◌<◌, ◌^◌, length};
    ghost use Rattle.answers.specs.Row.{row, answered};
    ghost use Rattle.activepauli.specs.Active.{active_of};
    ghost use Rattle.bitlaws.specs.Elimination.{words_of};
    ghost use Rattle.framelaws.specs.Carrying.{end_pauli};
    ghost use Rattle.framelaws.specs.Seeking as frame;
    ghost use Rattle.paulilaws.specs.Fitting.{Admitted};
    ghost use Rattle.refusals.specs.Refusal.{answer_of};
    ghost use Rattle.seeker.specs.Steps.{steps_of};

    // What elimination leaves of the end's masks, by as many words as the start has mask bits.
    pub(crate) fn remainder(&self, end: ActivePauli) -> u64
        ensures { result ≡ frame.remainder self.now.width (steps_of self.now) (active_of end) }
    {
        let mut room = [0u64; MOST_BITS];
        let words = &mut room[..self.width + self.width];
        self.write_words(words);
        elimination::eliminate(words, mask_word(end, self.last), self.last + self.last)
    }

    // The masks of one bit, the highest first, each with what it is carried to.
    fn write_words(&self, words: &mut [u64])
        requires { length words.old ≡ self.now.width + self.now.width }
        ensures { words.new ≡ words_of (frame.with_image self.now.width (steps_of self.now)) (self.now.width + self.now.width) }
    {
        for i in 0..words.len() {
            let bit = words.len() - 1 - i;
            words[i] = self.with_image(1u64 << bit);
        }
    }

    // The masks of a start, and below them those at the end.
    #[tactic(auto, using(crate::proofs::OneWord::shifted, crate::proofs::OneWord::above_small))]
    fn with_image(&self, masks: u64) -> u64
        requires { masks < 2 ^ 24 }
        ensures { result ≡ frame.with_image self.now.width (steps_of self.now) masks }
    {
        let end = self.end_pauli(with_masks(self.width, 0, masks));
        let above = 1u64 << (self.last + self.last);
        masks * above + mask_word(end, self.last)
    }

    // By what elimination left: 25 where a digit of the end's masks is left; else a start's masks stand above these
    // digits, and its phase is the end's less the one that these masks end with.
    #[tactic(auto, using(crate::proofs::OneWord::shifted))]
    pub(crate) fn start_for(&self, end: ActivePauli, left: u64) -> Result<ActivePauli, Row>
        requires { left ≡ frame.remainder self.now.width (steps_of self.now) (active_of end) }
        ensures { let n = self.now.width in let steps = steps_of self.now in let E = active_of end in
            answer_of active_of result ≡ answered (row (not (frame.is_reached n steps E)) 25 0) (frame.start_for n steps E) }
    {
        let above = 1u64 << (self.last + self.last);
        if left % above != 0 {
            return Err(Row::NoStart);
        }
        let masks = left / above;
        let carried = self.end_pauli(with_masks(self.width, 0, masks));
        let phase = (end.phase % 4 + 3 * (carried.phase % 4)) % 4;
        Ok(with_masks(self.width, phase, masks))
    }

    // The Pauli, on the start qubits, past each step.
    fn end_pauli(&self, pauli: ActivePauli) -> ActivePauli
        requires { Admitted (active_of pauli) × (pauli.nqubits ≡ self.now.width) }
        ensures { active_of result ≡ end_pauli (active_of pauli) (steps_of self.now) }
    {
        let mut cursor = Cursor {
            at: fields::START_BYTES,
            width: pauli.nqubits,
        };
        let mut held = pauli;
        // What is no step is the run's end, and no step that was checked refuses the Pauli.
        while let Ok(Read::Step(step, next)) = reader::read(self.run, cursor, self.limits) {
            held = passing::past(held, step).unwrap().pauli;
            cursor = next;
        }
        held
    }
}
