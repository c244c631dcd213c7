// A Pauli as the 17 bytes that a run's fields hold of it: k, then x and z, the lowest byte first.
ghost use Rattle.std.specs.Prelude.{◌≡◌, ◌+◌, ◌≤◌, length};
ghost use Rattle.std.proofs.lemmas.List.Edits.{sets};
ghost use Rattle.activepauli.specs.Active.{active_of};
ghost use Rattle.runlaws.specs.NumberBytes.{bytes_of};
ghost use Rattle.runlaws.specs.PauliBytes.{pauli_bytes};

use activepauli::ActivePauli;

pub(crate) const SIZE: usize = 17;

// Written from `to` on.
pub(crate) fn put(pauli: ActivePauli, to: usize, out: &mut [u8])
    requires { to + 17 ≤ length out.old }
    ensures { out.new ≡ sets out.old to (pauli_bytes (active_of pauli)) }
{
    out[to] = pauli.phase;
    put_word(pauli.x, to + 1, out);
    put_word(pauli.z, to + 9, out);
}

// A word's eight bytes.
fn put_word(word: u64, to: usize, out: &mut [u8])
    requires { to + 8 ≤ length out.old }
    ensures { out.new ≡ sets out.old to (bytes_of 8 word) }
{
    out[to..to + 8].copy_from_slice(&word.to_le_bytes());
}
