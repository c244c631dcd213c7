// Texts and bytes that may be long.
use pauli_calls::show;

// The C library's number of standard output.
const STDOUT_FILENO: i32 = 1;

// A text's length, and the text on one line, or where it has more than 400 bytes a digest of it.
pub fn shown(text: &[u8]) {
    show::number(text.len() as u64);
    if 400 < text.len() {
        summed(text);
        return;
    }
    show::byte(b' ');
    for byte in text {
        show::byte(in_line(*byte));
    }
}

// A newline ends the answer, so it is written as a slash, which no text here has.
fn in_line(byte: u8) -> u8 {
    if byte == b'\n' { b'/' } else { byte }
}

// The bytes between brackets, or where they are more than 400 a digest of them.
pub fn bytes(bytes: &[u8]) {
    if bytes.len() <= 400 {
        hex(bytes);
        return;
    }
    summed(bytes);
}

pub fn hex(bytes: &[u8]) {
    io::write_all(STDOUT_FILENO, b" [");
    for byte in bytes {
        io::print_hex(STDOUT_FILENO, u64::from(*byte), 2);
    }
    show::byte(b']');
}

fn summed(bytes: &[u8]) {
    show::byte(b' ');
    io::print_hex(STDOUT_FILENO, digest(bytes), 16);
}

// From FNV's offset basis, byte by byte, xored in and then times 2^40 + 2^8 + 1. A byte that is changed always changes it:
// no step takes two values to one.
fn digest(bytes: &[u8]) -> u64 {
    let mut value: u64 = 0xcbf29ce484222325;
    for byte in bytes {
        value = (value ^ u64::from(*byte)).wrapping_mul(0x10000000101);
    }
    value
}
