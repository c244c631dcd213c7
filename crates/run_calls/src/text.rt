// A call's name, and how many numbers it takes.
use callers::Caller;

// A call is known by its name's last letter, and by the capital if it is the emulator's: `emulated-` stands before it.
// It stays a letter: a last letter is the whole rule, so an enum would only list each letter once more.
pub(crate) fn call(name: &[u8]) -> Option<u8> {
    let last = *name.last()?;
    if name.first() == Some(&b'e') {
        return Some(last % 32 + 64);
    }
    Some(last)
}

// Who makes a call: the emulator's are capitals.
pub(crate) fn caller(call: u8) -> Caller {
    if call < b'a' {
        Caller::Emulator
    } else {
        Caller::Service
    }
}

// How many numbers a call takes: check, cuts, start and fold-equal; field and fold-into; run, and the emulator's step;
// step; both, seeker and both-show; carry; merge; passing.
pub(crate) fn arity(call: u8) -> Option<usize> {
    match call {
        b'k' | b'K' | b's' | b't' | b'l' | b'L' => Some(0),
        b'd' | b'o' | b'O' => Some(1),
        b'n' | b'N' | b'P' => Some(2),
        b'p' => Some(3),
        b'h' | b'H' | b'r' | b'R' | b'w' => Some(4),
        b'y' | b'Y' => Some(5),
        b'e' | b'E' => Some(8),
        b'g' => Some(10),
        _ => None,
    }
}
