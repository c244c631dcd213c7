// Both masks of a Pauli in one word: the Z mask above the X mask, as many bits for each as there are qubits.
ghost use Rattle.std.specs.Prelude.{◌≡◌, ◌≤◌};
ghost use Rattle.activepauli.specs.Active.{active_of};
ghost use Rattle.framelaws.specs.Caller.{widest_run};
ghost use Rattle.paulilaws.specs.MaskWord as masks;

use activepauli::ActivePauli;

// The masks on the lowest `width` qubits.
#[tactic(auto, using(crate::proofs::OneWord::shifted, crate::proofs::OneWord::word_fits), unfolding(paulilaws::specs::MaskWord::mask_word))]
pub(crate) fn mask_word(pauli: ActivePauli, width: usize) -> u64
    requires { width ≤ widest_run }
    ensures { result ≡ masks.mask_word width (active_of pauli) }
{
    let one = 1u64 << width;
    pauli.z % one * one + pauli.x % one
}

// The Pauli on `width` qubits with these masks.
#[tactic(auto, using(crate::proofs::OneWord::shifted), unfolding(paulilaws::specs::MaskWord::with_masks))]
pub(crate) fn with_masks(width: usize, phase: u8, word: u64) -> ActivePauli
    requires { width ≤ widest_run }
    ensures { active_of result ≡ masks.with_masks width phase word }
{
    let one = 1u64 << width;
    ActivePauli {
        nqubits: width,
        x: word % one,
        z: word / one % one,
        phase,
    }
}
