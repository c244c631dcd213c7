// One step: what is left of its field, and the Pauli behind it.
ghost use Rattle.std.specs.Prelude.{◌≡◌, ◌++◌, ◌*◌, ◌≤◌, length, drop};
ghost use Rattle.paulilaws.specs.Pauli as pauli;
ghost use Rattle.activepauli.specs.Active.{active_of};
ghost use Rattle.framelaws.specs.Carrying as carrying;
ghost use Rattle.framelaws.specs.Folding.{one_fired, fires, folded_past};
ghost use Rattle.framelaws.specs.PassRow.{pass_row};
ghost use Rattle.runlaws.specs.Flags.{flag_at};
ghost use Rattle.runlaws.specs.FoldedRun.{left_bytes};
ghost use Rattle.steps.specs.Meaning.{step_of};

use activepauli::ActivePauli;
use steps::Step;

// The bytes of a correction's whole field.
const CORRECTION_FIELD: usize = 20;

pub(crate) fn identity(width: usize) -> ActivePauli
    ensures { active_of result ≡ pauli.identity width }
{
    ActivePauli {
        nqubits: width,
        x: 0,
        z: 0,
        phase: 0,
    }
}

// How many bytes of the step's field are freed.
#[tactic(auto, unfolding(framelaws::specs::Folding::one_fired, framelaws::specs::Folding::fires))]
pub(crate) fn freed(step: Step) -> usize
    ensures { result ≡ 20 * one_fired (fires (step_of step)) }
{
    match step {
        Step::Correction(_) => CORRECTION_FIELD,
        _ => 0,
    }
}

// The Pauli behind the step: a correction fires its own, past another it is carried.
pub(crate) fn folded(pauli: ActivePauli, step: Step) -> ActivePauli
    requires { pass_row (active_of pauli) (step_of step) ≡ 0 }
    ensures { active_of result ≡ folded_past (active_of pauli) (step_of step) }
{
    match step {
        Step::Correction(fired) => fired.mul(pauli).unwrap(),
        _ => passing::past(pauli, step).unwrap().pauli,
    }
}

// What is left of the step's field, written to the front of `out`: how many bytes.
#[tactic(auto, using(runlaws::proofs::Flagged::flag_length), unfolding(runlaws::specs::FoldedRun::left_bytes, runlaws::specs::FoldedRun::kept_of, framelaws::specs::Folding::fires))]
pub(crate) fn write_left(field: &[u8], pauli: ActivePauli, step: Step, out: &mut [u8]) -> usize
    requires step_value { pass_row (active_of pauli) (step_of step) ≡ 0 }
    requires field_in_bounds { length (left_bytes (active_of pauli) (step_of step) field.now) ≤ length out.old }
    ensures { let left = left_bytes (active_of pauli) (step_of step) field.now in
        (result ≡ length left) × (out.new ≡ left ++ drop (length left) out.old) }
{
    match step {
        Step::Correction(_) => 0,
        _ => write_field(field, pauli, step, out),
    }
}

// The field with the sign or branch that the Pauli leaves.
fn write_field(field: &[u8], pauli: ActivePauli, step: Step, out: &mut [u8]) -> usize
    requires step_value { pass_row (active_of pauli) (step_of step) ≡ 0 }
    requires field_in_bounds { length field.now ≤ length out.old }
    ensures { let f = field.now in let left = flag_at 0 (carrying.carried_step (active_of pauli) (step_of step)) f in
        (result ≡ length f) × (out.new ≡ left ++ drop (length f) out.old) }
{
    let carried = passing::past(pauli, step).unwrap().step;
    let size = octets::copy(field, out);
    flags::write_flag(&mut out[0..size], 0, carried);
    size
}
