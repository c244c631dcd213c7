// Compact per-Pauli kernels (active.rs).
//
// Amplitude `basis` of an n-qubit state is the computational basis state whose qubit q is bit q of
// `basis`. A basis index fits a machine word, so an action has at most 62 qubits and a kernel 61. The
// kernels are of a fixed size: coefficients for each basis are derived from the masks as a call runs.
#![tactic(auto)]

ghost use Rattle.std.specs.Prelude.{◌≡◌, false, ◌<◌, ◌≤◌, ◌^◌};
ghost use Rattle.answers.specs.Row.{answered};
ghost use Rattle.refusals.specs.Refusal.{answer_of};
ghost use Rattle.paulis.specs.Strings.{pauli_of};
ghost use Rattle.activepauli.specs.Active.{active_of};
ghost use Rattle.amplitudelaws.specs.Rows.{action_row, rotation_kernel_row, measurement_row};
ghost use Rattle.kernels.specs.Kernel.{action_of, pauli_action};
ghost use Rattle.kernels.specs.Kernel.{rotation_kernel_of, rotation_kernel};
ghost use Rattle.kernels.specs.Kernel.{measurement_kernel_of, measurement_kernel};
ghost use Rattle.kernels.specs.Kernel.{default_pivot, highest_or_zero};

use activepauli::ActivePauli;
use complex::Complex64;
use paulis::PauliString;
use refusals::{Row, refuse_if};

// A Hermitian Pauli reduced to the single-word masks the kernels consume.
//
// `even_phase` is the operator's coefficient i^phase; a basis index whose overlap with `zmask` has odd
// parity picks up `odd_phase`, its negative. `xz_overlap_odd` says whether the two members of an X-pair
// see opposite parities.
#[repr(C)]
#[derive(Clone, Copy)]
pub struct ActivePauliAction {
    pub nqubits: usize,
    pub xmask: u64,
    pub zmask: u64,
    pub even_phase: Complex64,
    pub odd_phase: Complex64,
    pub xz_overlap_odd: bool,
}

// Everything c - i s P needs. `pair_bit` is the highest set bit of `xmask`, 0 where there is none;
// `minus_even_coefficient` is m = (+0, -s) times i^phase.
#[repr(C)]
#[derive(Clone, Copy)]
pub struct PrecomputedActivePauliRotationKernel {
    pub action: ActivePauliAction,
    pub is_diagonal: bool,
    pub uniform_imag_pairs: bool,
    pub pair_bit: usize,
    pub cos_kernel_angle: f64,
    pub sin_kernel_angle: f64,
    pub minus_even_coefficient: Complex64,
}

// Everything the probability of a branch of P and the projection on it need. `pivot` names the qubit
// that the measurement consumes: output index j is the input index with bit `pivot` deleted.
// `diagonal_phase_bit` is set where x is 0 and i^phase is -1; `nondiagonal_coefficient1_even` is w at even parity
// and branch 0, the conjugate of i^phase times 1/sqrt 2.
#[repr(C)]
#[derive(Clone, Copy)]
pub struct PrecomputedActivePauliMeasurementKernel {
    pub action: ActivePauliAction,
    pub pivot: usize,
    pub is_diagonal: bool,
    pub diagonal_phase_bit: bool,
    pub out_dim: usize,
    pub nondiagonal_coefficient1_even: Complex64,
}

impl ActivePauliAction {
    // Refused by 3, by 6 past 62 qubits and by 7 where the Pauli is not Hermitian.
    pub fn new(pauli: PauliString) -> Result<ActivePauliAction, Row>
        ensures { answer_of action_of result ≡ answered (action_row (pauli_of pauli)) (pauli_action (pauli_of pauli)) }
    {
        refuse_if(!pauli.is_pauli(), Row::NoPauli)?;
        let active = ActivePauli::lowest_words(pauli);
        rows::hermitian_row(active, rows::WIDEST_ACTION)?;
        Ok(action(active))
    }
}

fn action(pauli: ActivePauli) -> ActivePauliAction
    requires { pauli.phase ≤ 3 }
    ensures { action_of result ≡ pauli_action (active_of pauli) }
{
    let even_phase = complex::phase_factor(pauli.phase);
    ActivePauliAction {
        nqubits: pauli.nqubits,
        xmask: pauli.x,
        zmask: pauli.z,
        even_phase,
        odd_phase: complex::negated(true, even_phase),
        xz_overlap_odd: bits::is_odd_popcount(pauli.x & pauli.z),
    }
}

impl PrecomputedActivePauliRotationKernel {
    // The cosine and the sine come from the caller. Refused by 3, by 6 past 61 qubits, by 7 and 8.
    pub fn new(
        pauli: ActivePauli,
        c: f64,
        s: f64,
    ) -> Result<PrecomputedActivePauliRotationKernel, Row>
        ensures { let P = active_of pauli in
            answer_of rotation_kernel_of result ≡ answered (rotation_kernel_row P c s) (rotation_kernel P c s) }
    {
        rows::rotation_row(pauli, c, s)?;
        Ok(rotation_kernel(pauli, c, s))
    }
}

fn rotation_kernel(pauli: ActivePauli, c: f64, s: f64) -> PrecomputedActivePauliRotationKernel
    requires { (pauli.phase ≤ 3) × (pauli.x < 2 ^ pauli.nqubits) }
    ensures { rotation_kernel_of result ≡ rotation_kernel (active_of pauli) c s }
{
    let action = action(pauli);
    let is_diagonal = pauli.x == 0;
    PrecomputedActivePauliRotationKernel {
        action,
        is_diagonal,
        uniform_imag_pairs: !is_diagonal & (pauli.z == 0),
        pair_bit: highest_or_zero(pauli.x),
        cos_kernel_angle: c,
        sin_kernel_angle: s,
        minus_even_coefficient: complex::times(Complex64 { re: 0.0, im: -s }, action.even_phase),
    }
}

impl PrecomputedActivePauliMeasurementKernel {
    // Picks the pivot: the highest X qubit, else the highest Z qubit.
    pub fn from_pauli(pauli: ActivePauli) -> Result<PrecomputedActivePauliMeasurementKernel, Row>
        ensures { let M = active_of pauli in
            let p = default_pivot M in
            answer_of measurement_kernel_of result ≡ answered (measurement_row M p false) (measurement_kernel M p) }
    {
        // A Pauli with a bit at or above its width is refused whatever the pivot is.
        let pivot = highest_or_zero(rows::pivot_mask(pauli));
        PrecomputedActivePauliMeasurementKernel::with_pivot(pauli, pivot)
    }

    // Refused by 3, by 6 past 61 qubits, by 7 and by 9 to 12.
    pub fn with_pivot(
        pauli: ActivePauli,
        pivot: usize,
    ) -> Result<PrecomputedActivePauliMeasurementKernel, Row>
        ensures { let M = active_of pauli in
            answer_of measurement_kernel_of result ≡ answered (measurement_row M pivot false) (measurement_kernel M pivot) }
    {
        rows::measurement_row(pauli, pivot, false)?;
        Ok(measurement_kernel(pauli, pivot))
    }
}

fn measurement_kernel(pauli: ActivePauli, pivot: usize) -> PrecomputedActivePauliMeasurementKernel
    requires { (pauli.phase ≤ 3) × (0 < pauli.nqubits) × (pauli.nqubits ≤ 64) }
    ensures { measurement_kernel_of result ≡ measurement_kernel (active_of pauli) pivot }
{
    let action = action(pauli);
    let is_diagonal = pauli.x == 0;
    let even = action.even_phase;
    let conjugate = complex::conjugate(even);
    let h = f64::from_bits(complex::H_BITS);
    let out_dim = 1usize << (pauli.nqubits - 1);
    PrecomputedActivePauliMeasurementKernel {
        action,
        pivot,
        is_diagonal,
        diagonal_phase_bit: is_diagonal & (pauli.phase == 2),
        out_dim,
        nondiagonal_coefficient1_even: complex::scaled(conjugate, h),
    }
}

// The highest set bit of a word, 0 where none is.
fn highest_or_zero(word: u64) -> usize
    ensures { result ≡ highest_or_zero 64 word }
{
    bits::highest_bit(word).unwrap_or(0)
}
