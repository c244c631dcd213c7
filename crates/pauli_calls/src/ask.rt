// The calls, by what they are asked on.
use crate::{form, show};
use paulis::{Pauli, PauliString};

// The C library's number of standard output.
const STDOUT_FILENO: i32 = 1;

pub(crate) fn words(call: u8, words: [u64; 20]) {
    let a = form::mask(words, 0);
    let b = form::mask(words, 4);
    let n = form::index(words[4]);
    match call {
        b'o' => show::number(u64::from(bits::is_odd_popcount(words[0]))),
        b'n' => show::made(paulis::pauli_identity(form::index(words[0]))),
        b'i' => show::size(bits::insert_zero_bit(form::index(words[0]), form::index(words[1]))),
        b'P' => show::number(u64::from(masks::packed_bit(a, n))),
        b'F' => show::number(u64::from(masks::mask_fits(a, n))),
        b'W' => show::mask(masks::set_packed_bit(a, n, words[5] == 1)),
        b'O' => show::number(u64::from(masks::shared_ones(a, b))),
        _ => show::mask(masks::xor_words(a, b)),
    }
}

fn support(found: Option<usize>) {
    match found {
        Some(q) => show::number(q as u64),
        None => {
            io::write_all(STDOUT_FILENO, b"none");
        }
    }
}

fn letter(letter: Pauli) {
    show::number(match letter {
        Pauli::I => 0,
        Pauli::X => 1,
        Pauli::Z => 2,
        Pauli::Y => 3,
    });
}

fn both_bits(pauli: PauliString, q: usize) {
    show::bit(pauli.x_bit(q));
    show::byte(b' ');
    show::bit(pauli.z_bit(q));
}

// d: display, into so many dots.
fn display_in(pauli: PauliString, n: usize) {
    let mut space = [b'.'; 300];
    let Some(out) = space.get_mut(..n) else {
        show::unread();
        return;
    };
    show::size(paulitext::display(pauli, out));
    io::write_all(STDOUT_FILENO, b" [");
    io::write_all(STDOUT_FILENO, out);
    show::byte(b']');
}

pub(crate) fn paulis(call: u8, words: [u64; 20]) {
    let a = form::pauli(words, 0);
    let b = form::pauli(words, 10);
    let n = form::index(words[10]);
    match call {
        b'h' => show::bit(pauligroup::pauli_squares_to_identity(a)),
        b's' => show::bit(pauligroup::measurement_phase_sign(a)),
        b'c' => show::answer(
            pauligroup::coefficient_phase(a),
            |k| show::number(u64::from(k)),
        ),
        b'v' => show::number(u64::from(a.is_pauli())),
        b't' => show::answer(a.max_support(), support),
        b'f' => show::made(PauliString::from_parts(a.nqubits, a.x, a.z, a.phase)),
        b'g' => show::answer(a.get(n), letter),
        b'b' => both_bits(a, n),
        b'd' => display_in(a, n),
        b'S' => show::made(a.set(n, form::letter(words[11]))),
        b'm' => show::made(pauligroup::mul(a, b)),
        _ => show::bit(pauligroup::pauli_anticommutes(a, b)),
    }
}
