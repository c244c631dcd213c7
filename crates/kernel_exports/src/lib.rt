// The calls on one-word Paulis, kernels and amplitudes for callers in other languages, in C's calling
// convention: each is one call of the second layer. Its answer is a struct of numbers: the verdict, and the
// value, which beside a refusal is a fixed one. Paulis and kernels cross as the structs that they are, laid out as
// in C; a lent slice is a pointer and a length: that it is so long, and that no two overlap, is the caller's to
// see to. A sign or a branch comes in as a number, since a byte that is handed over for a bool may be any: over 1 it
// is refused by 14, behind the call's own rows.
//
// The floating-point mode is the process's, and no proof sees it. A program that is linked with -ffast-math, or that
// sets flush-to-zero itself, has subnormal numbers made zeros here too; another rounding mode changes last bits.
#![tactic(auto)]

mod flagged;
mod own;
pub mod seen;

ghost use Rattle.amplitudelaws.specs.Memory.{memory_of};
ghost use Rattle.amplitudelaws.specs.State.{state_of};
ghost use Rattle.std.specs.Prelude.{◌≡◌, false, ◌%◌};
ghost use Rattle.answers.specs.Outcome.{by_row, finished};
ghost use Rattle.answers.specs.Row.{first, answered};
ghost use Rattle.paulilaws.specs.Pauli as book;
ghost use Rattle.amplitudelaws.specs.Arithmetic as formula;
ghost use Rattle.amplitudelaws.specs.Binary.{binary};
ghost use Rattle.amplitudelaws.specs.Calls.{promoting, projected_memory, correcting};
ghost use Rattle.amplitudelaws.specs.Rows.{action_row, rotation_kernel_row, measurement_row};
ghost use Rattle.amplitudelaws.specs.Rows.{rotation_row, probability_row, projection_row};
ghost use Rattle.amplitudelaws.specs.Steps as steps;
ghost use Rattle.complex.specs.Complex.{complex_of};
ghost use Rattle.paulis.specs.Strings.{pauli_of};
ghost use Rattle.paulis.specs.Calls.{bit_call};
ghost use Rattle.pauligroup.specs.Calls.{product_call, anticommutes_call, squares_call};
ghost use Rattle.activepauli.specs.Active.{active_of};
ghost use Rattle.activepauli.specs.Calls.{raised_call, dropped_call};
ghost use Rattle.kernels.specs.Kernel.{action_of, pauli_action, rotation_kernel_of, rotation_kernel};
ghost use Rattle.kernels.specs.Kernel.{measurement_kernel_of, measurement_kernel, default_pivot};
ghost use Rattle.verdicts.specs.Flag.{flag_row};
ghost use Rattle.verdicts.specs.Verdict.{verdict_of, Seen};
ghost use Rattle.verdicts.specs.Nothing.{no_float};
ghost use Rattle.kernel_exports.specs.Nothing.{no_action, no_rotation, no_measurement};

use active_seen::SeenActivePauli;
use activepauli::ActivePauli;
use complex::Complex64;
use kernels::{
    ActivePauliAction, PrecomputedActivePauliMeasurementKernel,
    PrecomputedActivePauliRotationKernel,
};
use paulis::PauliString;
use seen::{SeenAction, SeenMeasurementKernel, SeenProbability, SeenRotationKernel};
use verdicts::{SeenBit, Verdict};

#[unsafe(no_mangle)]
pub extern "C" fn naribhush_active_mul(lhs: ActivePauli, rhs: ActivePauli) -> SeenActivePauli
    ensures { Seen result.verdict (active_of result.pauli) (book.identity 0) (product_call (active_of lhs) (active_of rhs)) }
{
    SeenActivePauli::from(lhs.mul(rhs))
}

#[unsafe(no_mangle)]
pub extern "C" fn naribhush_active_anticommutes(a: ActivePauli, b: ActivePauli) -> SeenBit
    ensures { Seen result.verdict result.bit false (anticommutes_call (active_of a) (active_of b)) }
{
    SeenBit::from(a.anticommutes(b))
}

#[unsafe(no_mangle)]
pub extern "C" fn naribhush_active_is_hermitian(pauli: ActivePauli) -> SeenBit
    ensures { Seen result.verdict result.bit false (squares_call (active_of pauli)) }
{
    SeenBit::from(pauli.is_hermitian())
}

#[unsafe(no_mangle)]
pub extern "C" fn naribhush_active_raised(pauli: ActivePauli, exponent: u8) -> SeenActivePauli
    ensures { Seen result.verdict (active_of result.pauli) (book.identity 0) (raised_call (active_of pauli) exponent) }
{
    SeenActivePauli::from(pauli.raised(exponent))
}

#[unsafe(no_mangle)]
pub extern "C" fn naribhush_active_dropped(pauli: ActivePauli, q: usize) -> SeenActivePauli
    ensures { Seen result.verdict (active_of result.pauli) (book.identity 0) (dropped_call (active_of pauli) q) }
{
    SeenActivePauli::from(pauli.dropped(q))
}

#[unsafe(no_mangle)]
pub extern "C" fn naribhush_active_x_bit(pauli: ActivePauli, q: usize) -> SeenBit
    ensures { Seen result.verdict result.bit false (bit_call (active_of pauli) pauli.x q) }
{
    SeenBit::from(pauli.x_bit(q))
}

#[unsafe(no_mangle)]
pub extern "C" fn naribhush_active_z_bit(pauli: ActivePauli, q: usize) -> SeenBit
    ensures { Seen result.verdict result.bit false (bit_call (active_of pauli) pauli.z q) }
{
    SeenBit::from(pauli.z_bit(q))
}

#[unsafe(no_mangle)]
pub extern "C" fn naribhush_phase_factor(phase: u8) -> Complex64
    ensures { complex_of result ≡ formula.power binary (phase % 4) }
{
    complex::phase_factor(phase)
}

#[unsafe(no_mangle)]
pub extern "C" fn naribhush_action(pauli: PauliString) -> SeenAction
    ensures { let P = pauli_of pauli in
        Seen result.verdict (action_of result.action) no_action (answered (action_row P) (pauli_action P)) }
{
    SeenAction::from(ActivePauliAction::new(pauli))
}

#[unsafe(no_mangle)]
pub extern "C" fn naribhush_rotation_kernel(
    pauli: ActivePauli,
    c: f64,
    s: f64,
) -> SeenRotationKernel
    ensures { let P = active_of pauli in
        let made = answered (rotation_kernel_row P c s) (rotation_kernel P c s) in
        Seen result.verdict (rotation_kernel_of result.kernel) no_rotation made }
{
    SeenRotationKernel::from(PrecomputedActivePauliRotationKernel::new(pauli, c, s))
}

#[unsafe(no_mangle)]
pub extern "C" fn naribhush_from_pauli(pauli: ActivePauli) -> SeenMeasurementKernel
    ensures { let M = active_of pauli in
        let p = default_pivot M in
        let made = answered (measurement_row M p false) (measurement_kernel M p) in
        Seen result.verdict (measurement_kernel_of result.kernel) no_measurement made }
{
    SeenMeasurementKernel::from(PrecomputedActivePauliMeasurementKernel::from_pauli(pauli))
}

#[unsafe(no_mangle)]
pub extern "C" fn naribhush_with_pivot(pauli: ActivePauli, pivot: usize) -> SeenMeasurementKernel
    ensures { let M = active_of pauli in
        let made = answered (measurement_row M pivot false) (measurement_kernel M pivot) in
        Seen result.verdict (measurement_kernel_of result.kernel) no_measurement made }
{
    SeenMeasurementKernel::from(PrecomputedActivePauliMeasurementKernel::with_pivot(pauli, pivot))
}

// The sign is 0 or 1; over 1 it is refused by 14.
#[unsafe(no_mangle)]
pub extern "C" fn naribhush_rotate(
    re: &mut [f64],
    im: &mut [f64],
    pauli: ActivePauli,
    sign: u8,
    c: f64,
    s: f64,
) -> Verdict
    ensures { let S = state_of re.old im.old in
        let row = first (rotation_row (active_of pauli) c s S) (flag_row sign) in
        let did = by_row row finished (steps.rotation (active_of pauli) sign c s S) S in
        (result ≡ verdict_of did.answer) × (state_of re.new im.new ≡ did.lent) }
{
    Verdict::from(flagged::rotate(re, im, pauli, sign, c, s))
}

#[unsafe(no_mangle)]
pub extern "C" fn naribhush_promote(
    re: &mut [f64],
    im: &mut [f64],
    nqubits: usize,
    c: f64,
    q: f64,
) -> Verdict
    ensures { let S = state_of re.old im.old in
        let did = promoting nqubits c q S in
        (result ≡ verdict_of did.answer) × (state_of re.new im.new ≡ did.lent) }
{
    Verdict::from(promotion::promote_contiguous_active(re, im, nqubits, c, q))
}

// The branch is 0 or 1; over 1 it is refused by 14.
#[unsafe(no_mangle)]
pub extern "C" fn naribhush_probability(
    re: &[f64],
    im: &[f64],
    pauli: ActivePauli,
    pivot: usize,
    branch: u8,
) -> SeenProbability
    ensures { let S = state_of re.now im.now in
        let row = first (probability_row (active_of pauli) pivot S) (flag_row branch) in
        Seen result.verdict result.probability no_float (answered row (steps.probability (active_of pauli) pivot branch S)) }
{
    SeenProbability::from(flagged::probability(re, im, pauli, pivot, branch))
}

// The branch is 0 or 1; over 1 it is refused by 14.
#[unsafe(no_mangle)]
pub extern "C" fn naribhush_project(
    re: &mut [f64],
    im: &mut [f64],
    scratch_re: &mut [f64],
    scratch_im: &mut [f64],
    pauli: ActivePauli,
    pivot: usize,
    branch: u8,
    invnorm: f64,
) -> Verdict
    ensures { let m = memory_of re.old im.old scratch_re.old scratch_im.old in
        let M = active_of pauli in
        let row = first (projection_row M pivot invnorm m.state m.scratch) (flag_row branch) in
        let did = by_row row finished (projected_memory M pivot branch invnorm m) m in
        (result ≡ verdict_of did.answer) × (memory_of re.new im.new scratch_re.new scratch_im.new ≡ did.lent) }
{
    Verdict::from(flagged::project(
        re, im, scratch_re, scratch_im, pauli, pivot, branch, invnorm,
    ))
}

#[unsafe(no_mangle)]
pub extern "C" fn naribhush_correct(re: &mut [f64], im: &mut [f64], pauli: ActivePauli) -> Verdict
    ensures { let S = state_of re.old im.old in
        let did = correcting (active_of pauli) S in
        (result ≡ verdict_of did.answer) × (state_of re.new im.new ≡ did.lent) }
{
    Verdict::from(correction::correct_contiguous_active(re, im, pauli))
}
