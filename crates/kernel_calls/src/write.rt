// What is written of an answer: numbers in decimal, masks after 0x, floats as they are read.
use activepauli::ActivePauli;
use complex::Complex64;
use kernels::{
    ActivePauliAction, PrecomputedActivePauliMeasurementKernel,
    PrecomputedActivePauliRotationKernel,
};
use pauli_calls::show;

// The C library's number of standard output.
const STDOUT_FILENO: i32 = 1;

pub(crate) fn done() {
    io::write_all(STDOUT_FILENO, b"done");
}

pub fn number(n: u64) {
    show::byte(b' ');
    show::number(n);
}

fn mask(word: u64) {
    io::write_all(STDOUT_FILENO, b" 0x");
    io::print_hex(STDOUT_FILENO, word, 1);
}

// As in a listing: any NaN is written as the same.
pub fn float(x: f64) {
    io::print_hex(STDOUT_FILENO, lines::bits(x), 16);
}

pub fn floats(buffer: &[f64]) {
    io::write_all(STDOUT_FILENO, b" |");
    for x in buffer {
        show::byte(b' ');
        float(*x);
    }
}

pub fn pauli(pauli: ActivePauli) {
    number(pauli.nqubits as u64);
    number(u64::from(pauli.phase));
    mask(pauli.x);
    mask(pauli.z);
}

pub(crate) fn made(value: ActivePauli) {
    done();
    pauli(value);
}

fn complex(value: Complex64) {
    show::byte(b' ');
    float(value.re);
    show::byte(b' ');
    float(value.im);
}

// `done`, width, masks, both phases, whether the masks share oddly many bits.
pub(crate) fn action(action: ActivePauliAction) {
    done();
    number(action.nqubits as u64);
    mask(action.xmask);
    mask(action.zmask);
    complex(action.even_phase);
    complex(action.odd_phase);
    number(u64::from(action.xz_overlap_odd));
}

// The action's fields; whether the kernel is diagonal, whether its pairs are uniform, the pair bit, cosine
// and sine, m.
pub(crate) fn rotation_kernel(kernel: PrecomputedActivePauliRotationKernel) {
    action(kernel.action);
    number(u64::from(kernel.is_diagonal));
    number(u64::from(kernel.uniform_imag_pairs));
    number(kernel.pair_bit as u64);
    complex(Complex64 {
        re: kernel.cos_kernel_angle,
        im: kernel.sin_kernel_angle,
    });
    complex(kernel.minus_even_coefficient);
}

// The action's fields; the pivot, whether the kernel is diagonal, the phase bit, the number of outputs, w.
pub(crate) fn measurement_kernel(kernel: PrecomputedActivePauliMeasurementKernel) {
    action(kernel.action);
    number(kernel.pivot as u64);
    number(u64::from(kernel.is_diagonal));
    number(u64::from(kernel.diagonal_phase_bit));
    number(kernel.out_dim as u64);
    complex(kernel.nondiagonal_coefficient1_even);
}
