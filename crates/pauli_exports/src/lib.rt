// The calls on bits and Pauli strings for callers in other languages, in C's calling convention: each is
// one call of the first layer. Its answer is a struct of numbers: the verdict, and the value, which beside a
// refusal is a fixed one. A Pauli string crosses as the struct that it is, laid out as in C; a lent slice
// is a pointer and a length, a mask a pointer to four words: that they are so long is the caller's to see to. A bit
// comes in as a number, since a byte that is handed over for a bool may be any: over 1 it is refused by 14, behind
// the call's own rows.
#![tactic(auto)]

pub mod seen;

ghost use Rattle.std.specs.Prelude.{◌≡◌, false, eqb};
ghost use Rattle.answers.specs.Row.{answered};
ghost use Rattle.bitlaws.specs.Digit.{bit_of, digit};
ghost use Rattle.bitlaws.specs.Parity.{parity};
ghost use Rattle.paulilaws.specs.Letter.{letter_of};
ghost use Rattle.paulilaws.specs.Letter.Letter.{I as Letter-as-I};
ghost use Rattle.paulilaws.specs.Pauli as book;
ghost use Rattle.bits.specs.Opening.{opening};
ghost use Rattle.masks.specs.Mask.{mask, bit_written};
ghost use Rattle.paulis.specs.Strings.{pauli_of, pauli_letter_of};
ghost use Rattle.paulis.specs.Calls.{identity_call, bit_call, get_call, set_call, support_call};
ghost use Rattle.pauligroup.specs.Calls.{product_call, anticommutes_call, coefficient_call, squares_call, sign_call};
ghost use Rattle.paulitext.specs.Text.{shown};
ghost use Rattle.paulitext.specs.Calls.{read_call, show_call, buffer_after};
ghost use Rattle.refusals.specs.Refusal.{answer_of};
ghost use Rattle.verdicts.specs.Flag.{flag_row, behind};
ghost use Rattle.verdicts.specs.Verdict.{Seen};
ghost use Rattle.pauli_exports.specs.Qubit.{SeenQubit};

use paulis::{Pauli, PauliString};
use refusals::Row;
use seen::{SeenLetter, SeenPauli, SeenSupport};
use verdicts::{SeenBit, SeenNumber, Verdict};

#[unsafe(no_mangle)]
pub extern "C" fn naribhush_is_odd_popcount(value: u64) -> bool
    ensures { result ≡ eqb (parity value) 1 }
{
    bits::is_odd_popcount(value)
}

#[unsafe(no_mangle)]
pub extern "C" fn naribhush_insert_zero_bit(packed: usize, bit: usize) -> SeenNumber
    ensures { Seen result.verdict result.number 0 (opening packed bit) }
{
    SeenNumber::from(bits::insert_zero_bit(packed, bit))
}

// False past bit 255.
#[unsafe(no_mangle)]
pub extern "C" fn naribhush_packed_bit(words: &[u64; 4], bit_index: usize) -> bool
    ensures { result ≡ eqb (digit bit_index (mask words.now)) 1 }
{
    masks::packed_bit(*words, bit_index)
}

// In place; past bit 255 nothing is written. The value is 0 or 1; over 1 it is refused by 14.
#[unsafe(no_mangle)]
pub extern "C" fn naribhush_set_packed_bit(
    words: &mut [u64; 4],
    bit_index: usize,
    value: u8,
) -> Verdict
    ensures { let m = mask words.old in
        Seen result (mask words.new) m (answered (flag_row value) (bit_written bit_index (eqb value 1) m)) }
{
    if let Err(row) = verdicts::flag_row(value) {
        return row.into();
    }
    *words = masks::set_packed_bit(*words, bit_index, value == 1);
    verdicts::accepted()
}

#[unsafe(no_mangle)]
pub extern "C" fn naribhush_pauli_identity(nqubits: usize) -> SeenPauli
    ensures { Seen result.verdict (pauli_of result.pauli) (book.identity 0) (identity_call nqubits) }
{
    SeenPauli::from(paulis::pauli_identity(nqubits))
}

#[unsafe(no_mangle)]
pub extern "C" fn naribhush_x_bit(pauli: PauliString, q: usize) -> SeenBit
    ensures { Seen result.verdict result.bit false (bit_call (pauli_of pauli) (mask pauli.x) q) }
{
    SeenBit::from(pauli.x_bit(q))
}

#[unsafe(no_mangle)]
pub extern "C" fn naribhush_z_bit(pauli: PauliString, q: usize) -> SeenBit
    ensures { Seen result.verdict result.bit false (bit_call (pauli_of pauli) (mask pauli.z) q) }
{
    SeenBit::from(pauli.z_bit(q))
}

#[unsafe(no_mangle)]
pub extern "C" fn naribhush_get(pauli: PauliString, q: usize) -> SeenLetter
    ensures { Seen result.verdict (letter_of (bit_of result.x) (bit_of result.z)) Letter-as-I (get_call (pauli_of pauli) q) }
{
    SeenLetter::from(pauli.get(q))
}

// The letter that has these parts.
fn letter(x: u8, z: u8) -> Pauli
    ensures { pauli_letter_of result ≡ letter_of x z }
{
    match (x, z) {
        (0, 0) => Pauli::I,
        (0, _) => Pauli::Z,
        (_, 0) => Pauli::X,
        (_, _) => Pauli::Y,
    }
}

fn set(pauli: PauliString, q: usize, x: u8, z: u8) -> Result<PauliString, Row>
    ensures { let set = set_call (pauli_of pauli) q (letter_of x z) in
        answer_of pauli_of result ≡ behind (behind set (flag_row x)) (flag_row z) }
{
    let set = pauli.set(q, letter(x, z))?;
    verdicts::flag_row(x)?;
    verdicts::flag_row(z)?;
    Ok(set)
}

// The letter by its X and its Z part, each 0 or 1; one over 1 is refused by 14.
#[unsafe(no_mangle)]
pub extern "C" fn naribhush_set(pauli: PauliString, q: usize, x: u8, z: u8) -> SeenPauli
    ensures { let set = set_call (pauli_of pauli) q (letter_of x z) in
        Seen result.verdict (pauli_of result.pauli) (book.identity 0) (behind (behind set (flag_row x)) (flag_row z)) }
{
    SeenPauli::from(set(pauli, q, x, z))
}

#[unsafe(no_mangle)]
pub extern "C" fn naribhush_max_support(pauli: PauliString) -> SeenSupport
    ensures { SeenQubit result.verdict result.found result.qubit (support_call (pauli_of pauli)) }
{
    SeenSupport::from(pauli.max_support())
}

#[unsafe(no_mangle)]
pub extern "C" fn naribhush_mul(lhs: PauliString, rhs: PauliString) -> SeenPauli
    ensures { Seen result.verdict (pauli_of result.pauli) (book.identity 0) (product_call (pauli_of lhs) (pauli_of rhs)) }
{
    SeenPauli::from(pauligroup::mul(lhs, rhs))
}

#[unsafe(no_mangle)]
pub extern "C" fn naribhush_pauli_anticommutes(a: PauliString, b: PauliString) -> SeenBit
    ensures { Seen result.verdict result.bit false (anticommutes_call (pauli_of a) (pauli_of b)) }
{
    SeenBit::from(pauligroup::pauli_anticommutes(a, b))
}

#[unsafe(no_mangle)]
pub extern "C" fn naribhush_coefficient_phase(pauli: PauliString) -> SeenNumber
    ensures { Seen result.verdict result.number 0 (coefficient_call (pauli_of pauli)) }
{
    SeenNumber::from(pauligroup::coefficient_phase(pauli))
}

#[unsafe(no_mangle)]
pub extern "C" fn naribhush_pauli_squares_to_identity(pauli: PauliString) -> SeenBit
    ensures { Seen result.verdict result.bit false (squares_call (pauli_of pauli)) }
{
    SeenBit::from(pauligroup::pauli_squares_to_identity(pauli))
}

#[unsafe(no_mangle)]
pub extern "C" fn naribhush_measurement_phase_sign(pauli: PauliString) -> SeenBit
    ensures { Seen result.verdict result.bit false (sign_call (pauli_of pauli)) }
{
    SeenBit::from(pauligroup::measurement_phase_sign(pauli))
}

#[unsafe(no_mangle)]
pub extern "C" fn naribhush_pauli_string(ops: &[u8]) -> SeenPauli
    ensures { Seen result.verdict (pauli_of result.pauli) (book.identity 0) (read_call ops.now) }
{
    SeenPauli::from(paulitext::pauli_string(ops))
}

#[unsafe(no_mangle)]
pub extern "C" fn naribhush_display(pauli: PauliString, out: &mut [u8]) -> SeenNumber
    ensures { let P = pauli_of pauli in
        let told = show_call P out.old in
        Seen result.verdict result.number 0 told × (out.new ≡ buffer_after told (shown P) out.old) }
{
    SeenNumber::from(paulitext::display(pauli, out))
}
