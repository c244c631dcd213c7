// The names of the calls on logs; report_calls knows the others.
use callers::Caller;

#[derive(Clone, Copy)]
pub(crate) enum Call {
    Log,
    Judge,
    Damaged,
}

pub(crate) fn named(name: &[u8]) -> Option<(Call, Caller)> {
    match name {
        b"log" => Some((Call::Log, Caller::Service)),
        b"emulated-log" => Some((Call::Log, Caller::Emulator)),
        b"judge" => Some((Call::Judge, Caller::Service)),
        b"emulated-judge" => Some((Call::Judge, Caller::Emulator)),
        b"damaged" => Some((Call::Damaged, Caller::Service)),
        b"emulated-damaged" => Some((Call::Damaged, Caller::Emulator)),
        _ => None,
    }
}
