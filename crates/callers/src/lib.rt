// Who calls for a run: how wide its states may be, and by which rows of the table a wider one is refused.
#![tactic(auto)]

ghost use Rattle.std.specs.Prelude.{◌≡◌};
ghost use Rattle.callers.specs.Meaning.{caller_of, limits_of};
ghost use Rattle.refusals.specs.Refusal.{number_of};

use refusals::Row;

// The widest state of the service's runs, and its rows of a start past that and of a promotion at it.
const WIDEST_RUN: usize = 12;

const START_ROW: Row = Row::BadField;

const PROMOTION_ROW: Row = Row::PromotionAtWidest;

// The same of the emulator, a board that has 64 amplitudes (change request E8).
const WIDEST_EMULATED: usize = 6;

const EMULATED_START_ROW: Row = Row::TooWideForEmulator;

const EMULATED_PROMOTION_ROW: Row = Row::TooWideForEmulator;

// A caller is one of two, so that no other rows can be asked for.
#[derive(Clone, Copy)]
pub enum Caller {
    Service,
    Emulator,
}

impl Caller {
    pub fn limits(self) -> Limits
        ensures { limits_of result ≡ caller_of self }
    {
        match self {
            Caller::Service => Limits::Service(WIDEST_RUN),
            Caller::Emulator => Limits::Emulator,
        }
    }
}

// What a run is checked under: the service's rows with any limit on the width, or the emulator's.
#[derive(Clone, Copy)]
pub enum Limits {
    Service(usize),
    Emulator,
}

impl Limits {
    // The greatest width.
    pub fn widest(self) -> usize
        ensures { result ≡ (limits_of self).widest }
    {
        match self {
            Limits::Service(limit) => limit,
            Limits::Emulator => WIDEST_EMULATED,
        }
    }

    // The row that refuses a start field past it.
    pub fn start_row(self) -> Row
        ensures { number_of result ≡ (limits_of self).start_row }
    {
        match self {
            Limits::Service(_) => START_ROW,
            Limits::Emulator => EMULATED_START_ROW,
        }
    }

    // The row that refuses a promotion at it.
    pub fn promotion_row(self) -> Row
        ensures { number_of result ≡ (limits_of self).promotion_row }
    {
        match self {
            Limits::Service(_) => PROMOTION_ROW,
            Limits::Emulator => EMULATED_PROMOTION_ROW,
        }
    }
}
