// The names of the calls, and how many numbers each takes behind its run.
use callers::Caller;

#[derive(Clone, Copy)]
pub(crate) enum Call {
    Report(Caller),
    Reports(Caller),
    Find,
    Line,
    Lines,
    Input,
}

pub(crate) fn named(name: &[u8]) -> Option<Call> {
    match name {
        b"report" => Some(Call::Report(Caller::Service)),
        b"emulated-report" => Some(Call::Report(Caller::Emulator)),
        b"reports" => Some(Call::Reports(Caller::Service)),
        b"emulated-reports" => Some(Call::Reports(Caller::Emulator)),
        b"find" => Some(Call::Find),
        b"line" => Some(Call::Line),
        b"lines" => Some(Call::Lines),
        b"input" => Some(Call::Input),
        _ => None,
    }
}

impl Call {
    // A Pauli is four numbers.
    pub(crate) fn arity(self) -> usize {
        match self {
            Call::Input => 1,
            Call::Reports(_) => 4,
            Call::Report(_) | Call::Find | Call::Lines => 5,
            Call::Line => 6,
        }
    }
}
