// Two Paulis on the same qubits, so that no call on them is refused.
ghost use Rattle.std.specs.Prelude.{◌≡◌, ◌*◌, ◌<◌};
ghost use Rattle.bitlaws.specs.Digit.{bit_of};
ghost use Rattle.paulilaws.specs.Pauli.{product, anti};
ghost use Rattle.paulilaws.specs.Fitting.{Admitted};
ghost use Rattle.paulilaws.specs.Frame as frame;
ghost use Rattle.activepauli.specs.Active.{active_of};
ghost use Rattle.framelaws.specs.Carrying as carrying;
ghost use Rattle.framelaws.specs.Suited.{Paired};

use activepauli::ActivePauli;

// A Pauli that is carried, and the one of the step.
#[derive(Clone, Copy)]
pub(crate) struct Pair {
    pub(crate) pauli: ActivePauli,
    pub(crate) other: ActivePauli,
    ghost paired: { Paired (active_of pauli) (active_of other) },
}

impl Pair {
    pub(crate) fn anticommute(self) -> bool
        ensures { bit_of result ≡ anti (active_of self.pauli) (active_of self.other) }
    {
        self.pauli.anticommutes(self.other).unwrap()
    }

    // A sign or a branch as the carried one leaves it.
    pub(crate) fn flipped(self, flag: bool) -> bool
        ensures { bit_of result ≡ carrying.flipped (active_of self.pauli) (active_of self.other) (bit_of flag) }
    {
        flag ^ self.anticommute()
    }

    // Whether the carried one has at the pivot what the other has there: an X part, or a Z part where that has no X
    // part anywhere.
    fn meets(self, pivot: usize) -> bool
        requires { pivot < self.pauli.nqubits }
        ensures { result ≡ carrying.meets (active_of self.other) pivot (active_of self.pauli) }
    {
        if self.other.x == 0 {
            self.pauli.z_bit(pivot).unwrap()
        } else {
            self.pauli.x_bit(pivot).unwrap()
        }
    }

    // The product, in which `other` acts first.
    fn product(self) -> ActivePauli
        ensures { active_of result ≡ product (active_of self.pauli) (active_of self.other) }
    {
        self.pauli.mul(self.other).unwrap()
    }

    // The carried one times the other, with the new branch's sign, if they meet.
    #[tactic(auto, unfolding(framelaws::specs::Carrying::absorbed))]
    fn absorbed(self, met: bool, branch: bool) -> ActivePauli
        ensures { active_of result ≡ carrying.absorbed met (active_of self.other) (bit_of branch) (active_of self.pauli) }
    {
        if met {
            signed(self.product(), branch)
        } else {
            self.pauli
        }
    }

    // The carried one past a projection of the other, of this pivot and branch.
    pub(crate) fn past_projection(self, pivot: usize, branch: bool) -> ActivePauli
        requires { pivot < self.pauli.nqubits }
        ensures { let Q = active_of self.pauli in let M = active_of self.other in let new = carrying.flipped Q M (bit_of branch) in
            active_of result ≡ frame.dropped pivot (carrying.absorbed (carrying.meets M pivot Q) M new Q) }
    {
        let new = self.flipped(branch);
        let met = self.meets(pivot);
        let whole = self.absorbed(met, new);
        whole.dropped(pivot).unwrap()
    }

    // Past a quarter turn of the other: times that, which acts second, and i^3, if they anticommute.
    pub(crate) fn past_quarter_turn(self) -> ActivePauli
        ensures { active_of result ≡ carrying.turned_past (active_of self.pauli) (active_of self.other) }
    {
        if self.anticommute() {
            let turned = Pair {
                pauli: self.other,
                other: self.pauli,
            };
            turned.product().raised(3).unwrap()
        } else {
            self.pauli
        }
    }
}

// Times i^(2 flag).
pub(crate) fn signed(pauli: ActivePauli, flag: bool) -> ActivePauli
    requires { Admitted (active_of pauli) }
    ensures { active_of result ≡ frame.raised (2 * bit_of flag) (active_of pauli) }
{
    pauli.raised(2 * u8::from(flag)).unwrap()
}
