// What a caller in another language sees of an answer. An enum does not cross that border, so an exported
// call answers a struct of numbers, of which a verdict is the first.
#![tactic(auto)]

ghost use Rattle.std.specs.Prelude.{◌≡◌, false};
ghost use Rattle.answers.specs.Outcome.{finished};
ghost use Rattle.refusals.specs.Refusal.{number_of, row_of, answer_of};
ghost use Rattle.verdicts.specs.Flag.{flag_row};
ghost use Rattle.verdicts.specs.Verdict.{verdict_of, verdict_on, ResultSeen};

use refusals::{Refusal, Row, RowAt};

// By `kind`: 0 the call is accepted, 1 it is refused by `number`, 2 it is refused by `number` at `place`.
// A field that the kind has no use for is 0.
#[repr(C)]
#[derive(Clone, Copy)]
pub struct Verdict {
    pub kind: u8,
    pub number: u8,
    pub place: usize,
}

pub fn accepted() -> Verdict
    ensures { result ≡ record { kind = 0; number = 0; place = 0 } }
{
    Verdict {
        kind: 0,
        number: 0,
        place: 0,
    }
}

impl From<Row> for Verdict {
    ghost from_gives = { λ row verdict. verdict ≡ record { kind = 1; number = number_of row; place = 0 } };

    fn from(row: Row) -> Verdict {
        Verdict {
            kind: 1,
            number: row.into(),
            place: 0,
        }
    }
}

impl From<RowAt> for Verdict {
    ghost from_gives = { λ p verdict. verdict ≡ record { kind = 2; number = number_of p.row; place = p.at } };

    fn from(row_at: RowAt) -> Verdict {
        Verdict {
            kind: 2,
            number: row_at.row.into(),
            place: row_at.at,
        }
    }
}

impl From<Refusal> for Verdict {
    ghost from_gives = { λ refusal verdict. verdict ≡ verdict_on refusal };

    fn from(refusal: Refusal) -> Verdict {
        match refusal {
            Refusal::Whole(row) => row.into(),
            Refusal::At(row_at) => row_at.into(),
        }
    }
}

// A call that has no value to give: what was lent to it holds it.
impl From<Result<(), Row>> for Verdict {
    ghost from_gives = { λ answer verdict. verdict ≡ verdict_of (answer_of (λ done. finished) answer) };

    fn from(answer: Result<(), Row>) -> Verdict {
        match answer {
            Ok(()) => accepted(),
            Err(row) => row.into(),
        }
    }
}

// The verdict on an answer, and its value, which beside a refusal is `other`.
pub fn verdict_and_value<T: Drop, E>(answer: Result<T, E>, other: T) -> (Verdict, T)
where
    Verdict: From<E>,
    ensures { ResultSeen ⟦<Verdict as From<E>>⟧.from_gives (λ value. value) result.0 result.1 other answer }
{
    match answer {
        Ok(value) => (accepted(), value),
        Err(refusal) => (refusal.into(), other),
    }
}

// Refused by 14 where a number that is to be a bit is over 1. Another language may hand over any byte for a
// bit, so the exported calls take a number and look at it.
pub fn flag_row(flag: u8) -> Result<(), Row>
    ensures { row_of result ≡ flag_row flag }
{
    refusals::refuse_if(1 < flag, Row::BadField)
}

// A bit: false beside a refusal. A struct for each kind of value, here and in the crates above: C takes no struct with a
// type parameter.
#[repr(C)]
#[derive(Clone, Copy)]
pub struct SeenBit {
    pub verdict: Verdict,
    pub bit: bool,
}

impl<E> From<Result<bool, E>> for SeenBit
where
    Verdict: From<E>,
{
    ghost from_gives = { λ answer seen.
        ResultSeen ⟦<Verdict as From<E>>⟧.from_gives (λ bit. bit) seen.verdict seen.bit false answer };

    fn from(answer: Result<bool, E>) -> SeenBit {
        let (verdict, bit) = verdict_and_value(answer, false);
        SeenBit { verdict, bit }
    }
}

// A number: 0 beside a refusal.
#[repr(C)]
#[derive(Clone, Copy)]
pub struct SeenNumber {
    pub verdict: Verdict,
    pub number: usize,
}

impl<E> From<Result<usize, E>> for SeenNumber
where
    Verdict: From<E>,
{
    ghost from_gives = { λ answer seen.
        ResultSeen ⟦<Verdict as From<E>>⟧.from_gives (λ number. number) seen.verdict seen.number 0 answer };

    fn from(answer: Result<usize, E>) -> SeenNumber {
        let (verdict, number) = verdict_and_value(answer, 0);
        SeenNumber { verdict, number }
    }
}

impl<E> From<Result<u8, E>> for SeenNumber
where
    Verdict: From<E>,
{
    ghost from_gives = { λ answer seen.
        ResultSeen ⟦<Verdict as From<E>>⟧.from_gives (λ number. number) seen.verdict seen.number 0 answer };

    fn from(answer: Result<u8, E>) -> SeenNumber {
        let (verdict, number) = verdict_and_value(answer, 0);
        SeenNumber {
            verdict,
            number: usize::from(number),
        }
    }
}
