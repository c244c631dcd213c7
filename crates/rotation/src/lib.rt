// Rotation of a state (contiguous.rs, the scalar loops): alpha <- (c - i s P) alpha over the first 2^n
// amplitudes, in place. What lies past them is kept.
#![tactic(auto)]

mod amplitude;
mod diagonal;
mod pairs;

ghost use Rattle.std.specs.Prelude.{◌≡◌};
ghost use Rattle.bitlaws.specs.Digit.{bit_of};
ghost use Rattle.activepauli.specs.Active.{active_of};
ghost use Rattle.amplitudelaws.specs.Calls.{rotating};
ghost use Rattle.amplitudelaws.specs.Lent.{Room};
ghost use Rattle.amplitudelaws.specs.State.{state_of};
ghost use Rattle.rows.specs.Step.{step_answer_of};
ghost use Rattle.kernels.specs.Kernel.{rotation_kernel_of};
ghost use Rattle.rotation.specs.Kernel.{Rotatable, by_kernel};

use activepauli::ActivePauli;
use kernels::PrecomputedActivePauliRotationKernel;
use refusals::Row;

// By a kernel that a Pauli made: with -s where `sign`.
#[derive(Clone, Copy)]
struct Rotation {
    kernel: PrecomputedActivePauliRotationKernel,
    sign: bool,
    ghost rotatable: { Rotatable (rotation_kernel_of kernel) },
}

// By c and s, or by c and -s where `sign`. Refused by 3, by 6 past 61 qubits, by 7, 8 and 13.
pub fn rotate_contiguous_active(
    re: &mut [f64],
    im: &mut [f64],
    pauli: ActivePauli,
    sign: bool,
    c: f64,
    s: f64,
) -> Result<(), Row>
    ensures { let S = state_of re.old im.old in
        let did = rotating (active_of pauli) (bit_of sign) c s S in
        (step_answer_of result ≡ did.answer) × (state_of re.new im.new ≡ did.lent) }
{
    let kernel = PrecomputedActivePauliRotationKernel::new(pauli, c, s)?;
    rows::room_row(rows::has_room(re, im, pauli.nqubits))?;
    let rotation = Rotation { kernel, sign };
    rotation.rotate(re, im);
    Ok(())
}

impl Rotation {
    // By the loop for the kernel's case. `re` and `im` stay two slices: a struct of two `&mut` would want two clauses more of
    // each function, that either field keeps its reference.
    #[tactic(auto, unfolding(crate::specs::Kernel::by_kernel, amplitudelaws::specs::Rotation::rotated_by))]
    fn rotate(self, re: &mut [f64], im: &mut [f64])
        requires { Room self.kernel.action.nqubits re.old im.old }
        ensures { state_of re.new im.new ≡ by_kernel (rotation_kernel_of self.kernel) (bit_of self.sign) (state_of re.old im.old) }
    {
        if self.kernel.is_diagonal {
            self.rotate_diagonal(re, im);
        } else if self.kernel.uniform_imag_pairs {
            self.rotate_uniform_imag_pairs(re, im);
        } else {
            self.rotate_pairs(re, im);
        }
    }
}
