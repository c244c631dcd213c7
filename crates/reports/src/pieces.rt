// Pieces of a line, each put into a lent buffer at a place: the answer is where the piece ends.
ghost use Rattle.std.specs.Prelude.{◌++◌, ◌+◌, ◌*◌, ◌≤◌, ◌<◌, length};
ghost use Rattle.activepauli.specs.Active.{active_of};
ghost use Rattle.framelaws.specs.Caller.{widest_run};
ghost use Rattle.lines.specs.Lines.{decimal};
ghost use Rattle.paulitext.specs.Text.{shown};
ghost use Rattle.reports.specs.Narrow.{NarrowPauli};
ghost use Rattle.lines.specs.Stored.{Stored};
ghost use Rattle.reports.specs.Text.{qubit_text, qubits_from};

use activepauli::ActivePauli;
use paulis::PauliString;

// A text. It stands here and not with the lines: open to others it would ask for room.
pub(crate) fn put(text: &[u8], at: usize, out: &mut [u8]) -> usize
    requires { at + length text.now ≤ length out.old }
    ensures { Stored text.now at out.old result out.new }
{
    at + octets::copy(text, &mut out[at..])
}

// A number in decimal. The lines' own, which is open to others and asks nothing, looks for room first.
pub(crate) fn put_number(n: u64, at: usize, out: &mut [u8]) -> usize
    requires { at + length (decimal n) ≤ length out.old }
    ensures { Stored (decimal n) at out.old result out.new }
{
    let mut digits = [0u8; 20];
    let count = io::decimal(n, &mut digits);
    put(&digits[..count], at, out)
}

// A text and behind it a number.
pub(crate) fn put_numbered(label: &[u8], n: u64, at: usize, out: &mut [u8]) -> usize
    requires { at + length label.now + length (decimal n) ≤ length out.old }
    ensures { Stored (label.now ++ decimal n) at out.old result out.new }
{
    let end = put(label, at, out);
    put_number(n, end, out)
}

// A Pauli.
pub(crate) fn put_pauli(pauli: ActivePauli, at: usize, out: &mut [u8]) -> usize
    requires { NarrowPauli (active_of pauli) × (at + 15 ≤ length out.old) }
    ensures { Stored (shown (active_of pauli)) at out.old result out.new }
{
    at + paulitext::display(PauliString::from(pauli), &mut out[at..]).unwrap()
}

// A text and behind it a Pauli.
pub(crate) fn put_named(label: &[u8], pauli: ActivePauli, at: usize, out: &mut [u8]) -> usize
    requires { NarrowPauli (active_of pauli) × (at + length label.now + 15 ≤ length out.old) }
    ensures { Stored (label.now ++ shown (active_of pauli)) at out.old result out.new }
{
    let end = put(label, at, out);
    put_pauli(pauli, end, out)
}

// A qubit, where it is in the mask.
fn put_qubit(mask: u64, q: usize, at: usize, out: &mut [u8]) -> usize
    requires { (q < 100) × (at + 3 ≤ length out.old) }
    ensures { Stored (qubit_text q mask) at out.old result out.new }
{
    if bits::word_bit(mask, q) {
        return put_numbered(b" ", q as u64, at, out);
    }
    at
}

// Each qubit below `width` that is in the mask.
pub(crate) fn put_qubits(mask: u64, width: usize, at: usize, out: &mut [u8]) -> usize
    requires { (width ≤ widest_run) × (at + 3 * width ≤ length out.old) }
    ensures { Stored (qubits_from 0 width mask) at out.old result out.new }
{
    let mut end = at;
    for q in 0..width {
        end = put_qubit(mask, q, end, out);
    }
    end
}
