// The answers of the second layer as a caller in another language sees them.
ghost use Rattle.refusals.specs.Refusal.{answer_of};
ghost use Rattle.std.specs.Prelude.{◌≡◌};
ghost use Rattle.kernels.specs.Kernel.{action_of, rotation_kernel_of, measurement_kernel_of};
ghost use Rattle.verdicts.specs.Nothing.{no_float};
ghost use Rattle.verdicts.specs.Verdict.{Seen};
ghost use Rattle.kernel_exports.specs.Nothing.{no_action, no_rotation, no_measurement};

use complex::Complex64;
use kernels::{
    ActivePauliAction, PrecomputedActivePauliMeasurementKernel,
    PrecomputedActivePauliRotationKernel,
};
use refusals::Row;
use verdicts::{Verdict, verdict_and_value};

// Beside a refusal all numbers of an action or a kernel are 0.
#[repr(C)]
#[derive(Clone, Copy)]
pub struct SeenAction {
    pub verdict: Verdict,
    pub action: ActivePauliAction,
}

fn no_action() -> ActivePauliAction
    ensures { action_of result ≡ no_action }
{
    ActivePauliAction {
        nqubits: 0,
        xmask: 0,
        zmask: 0,
        even_phase: Complex64 { re: 0.0, im: 0.0 },
        odd_phase: Complex64 { re: 0.0, im: 0.0 },
        xz_overlap_odd: false,
    }
}

impl From<Result<ActivePauliAction, Row>> for SeenAction {
    ghost from_gives = { λ answer seen. Seen seen.verdict (action_of seen.action) no_action (answer_of action_of answer) };

    fn from(answer: Result<ActivePauliAction, Row>) -> SeenAction {
        let (verdict, action) = verdict_and_value(answer, no_action());
        SeenAction { verdict, action }
    }
}

#[repr(C)]
#[derive(Clone, Copy)]
pub struct SeenRotationKernel {
    pub verdict: Verdict,
    pub kernel: PrecomputedActivePauliRotationKernel,
}

fn no_rotation() -> PrecomputedActivePauliRotationKernel
    ensures { rotation_kernel_of result ≡ no_rotation }
{
    PrecomputedActivePauliRotationKernel {
        action: no_action(),
        is_diagonal: false,
        uniform_imag_pairs: false,
        pair_bit: 0,
        cos_kernel_angle: 0.0,
        sin_kernel_angle: 0.0,
        minus_even_coefficient: Complex64 { re: 0.0, im: 0.0 },
    }
}

impl From<Result<PrecomputedActivePauliRotationKernel, Row>> for SeenRotationKernel {
    ghost from_gives = { λ answer seen.
        Seen seen.verdict (rotation_kernel_of seen.kernel) no_rotation (answer_of rotation_kernel_of answer) };

    fn from(answer: Result<PrecomputedActivePauliRotationKernel, Row>) -> SeenRotationKernel {
        let (verdict, kernel) = verdict_and_value(answer, no_rotation());
        SeenRotationKernel { verdict, kernel }
    }
}

#[repr(C)]
#[derive(Clone, Copy)]
pub struct SeenMeasurementKernel {
    pub verdict: Verdict,
    pub kernel: PrecomputedActivePauliMeasurementKernel,
}

fn no_measurement() -> PrecomputedActivePauliMeasurementKernel
    ensures { measurement_kernel_of result ≡ no_measurement }
{
    PrecomputedActivePauliMeasurementKernel {
        action: no_action(),
        pivot: 0,
        is_diagonal: false,
        diagonal_phase_bit: false,
        out_dim: 0,
        nondiagonal_coefficient1_even: Complex64 { re: 0.0, im: 0.0 },
    }
}

impl From<Result<PrecomputedActivePauliMeasurementKernel, Row>> for SeenMeasurementKernel {
    ghost from_gives = { λ answer seen.
        Seen seen.verdict (measurement_kernel_of seen.kernel) no_measurement (answer_of measurement_kernel_of answer) };

    fn from(answer: Result<PrecomputedActivePauliMeasurementKernel, Row>) -> SeenMeasurementKernel {
        let (verdict, kernel) = verdict_and_value(answer, no_measurement());
        SeenMeasurementKernel { verdict, kernel }
    }
}

// Beside a refusal the probability is +0.
#[repr(C)]
#[derive(Clone, Copy)]
pub struct SeenProbability {
    pub verdict: Verdict,
    pub probability: f64,
}

impl From<Result<f64, Row>> for SeenProbability {
    ghost from_gives = { λ answer seen. Seen seen.verdict seen.probability no_float (answer_of (λ p. p) answer) };

    fn from(answer: Result<f64, Row>) -> SeenProbability {
        let (verdict, probability) = verdict_and_value(answer, 0.0);
        SeenProbability {
            verdict,
            probability,
        }
    }
}
