// Why a call is refused: a row of the table of refusals, by itself or with its place. Callers in other languages see the row's number.
#![tactic(auto)]

ghost use Rattle.std.specs.Prelude.{◌≡◌};
ghost use Rattle.answers.specs.Row as table;
ghost use Rattle.refusals.specs.Refusal.{number_of, row_of};
ghost use Rattle.refusals.specs.declared.Refusal.TheVariants as refusal;

use std::error::Error;
use std::fmt;

// A row of the table, in the table's order; docs/FORMAT.md says when each refuses.
#[derive(Clone, Copy, Debug, PartialEq, Eq)]
pub enum Row {
    TextTooLong,
    NoLetter,
    NoPauli,
    WidthsDiffer,
    NoSuchQubit,
    TooWide,
    NotHermitian,
    UnfitFloat,
    NoQubits,
    PivotPastWidth,
    MeasuresIdentity,
    IdlePivot,
    TooFewAmplitudes,
    BadField,
    PromotionAtWidest,
    OutputTooShort,
    NoSuchStep,
    TooWideForEmulator,
    LogLength,
    NoStart,
}

impl From<Row> for u8 {
    ghost from_gives = { λ row n. n ≡ number_of row };

    fn from(row: Row) -> u8 {
        match row {
            Row::TextTooLong => 1,
            Row::NoLetter => 2,
            Row::NoPauli => 3,
            Row::WidthsDiffer => 4,
            Row::NoSuchQubit => 5,
            Row::TooWide => 6,
            Row::NotHermitian => 7,
            Row::UnfitFloat => 8,
            Row::NoQubits => 9,
            Row::PivotPastWidth => 10,
            Row::MeasuresIdentity => 11,
            Row::IdlePivot => 12,
            Row::TooFewAmplitudes => 13,
            Row::BadField => 14,
            Row::PromotionAtWidest => 15,
            Row::OutputTooShort => 16,
            Row::NoSuchStep => 20,
            Row::TooWideForEmulator => 21,
            Row::LogLength => 24,
            Row::NoStart => 25,
        }
    }
}

impl fmt::Display for Row {
    ghost use Rattle.std.specs.Prelude.{Some};
    ghost use Rattle.refusals.specs.Printed.{row_text};

    ghost output = { λ row. Some (row_text row) };

    fn fmt<W: fmt::Write>(&self, f: &mut fmt::Formatter<W>) -> fmt::Result {
        let number = u8::from(*self);
        write!(f, "refused {number}")
    }
}

impl Error for Row {}

// A row with its place: the offset of a field's tag in a run, or the index of a byte in a text.
#[derive(Clone, Copy, Debug, PartialEq, Eq)]
pub struct RowAt {
    pub row: Row,
    pub at: usize,
}

impl fmt::Display for RowAt {
    ghost use Rattle.std.specs.Prelude.{Some};
    ghost use Rattle.refusals.specs.Printed.{row_at_text};

    ghost output = { λ row_at. Some (row_at_text row_at) };

    fn fmt<W: fmt::Write>(&self, f: &mut fmt::Formatter<W>) -> fmt::Result {
        let row = self.row;
        let at = self.at;
        write!(f, "{row} at {at}")
    }
}

impl Error for RowAt {}

// What a call on a run or a text is refused by: a row with its place, or one that speaks of the whole call.
#[derive(Clone, Copy, Debug, PartialEq, Eq)]
pub enum Refusal {
    Whole(Row),
    At(RowAt),
}

impl From<Row> for Refusal {
    ghost from_gives = { λ row r. r ≡ refusal.Whole row };

    fn from(row: Row) -> Refusal {
        Refusal::Whole(row)
    }
}

impl From<RowAt> for Refusal {
    ghost from_gives = { λ row_at r. r ≡ refusal.At row_at };

    fn from(row_at: RowAt) -> Refusal {
        Refusal::At(row_at)
    }
}

impl fmt::Display for Refusal {
    ghost use Rattle.std.specs.Prelude.{Some};
    ghost use Rattle.refusals.specs.Printed.{refusal_text};

    ghost output = { λ refusal. Some (refusal_text refusal) };

    fn fmt<W: fmt::Write>(&self, f: &mut fmt::Formatter<W>) -> fmt::Result {
        match self {
            Refusal::Whole(row) => write!(f, "{row}"),
            Refusal::At(row_at) => write!(f, "{row_at}"),
        }
    }
}

impl Error for Refusal {}

// Refused by the row where its test holds.
pub fn refuse_if(test: bool, row: Row) -> Result<(), Row>
    ensures { row_of result ≡ table.row test (number_of row) 0 }
{
    if test { Err(row) } else { Ok(()) }
}
