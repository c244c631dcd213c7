// The tag of each kind of field behind the start field. They stay numbers: the bytes of the format, compared as they stand in a run.
pub const ROTATION: u8 = 2;

pub const PROMOTION: u8 = 3;

pub const PROJECTION: u8 = 4;

pub const CORRECTION: u8 = 5;

pub const END: u8 = 6;

pub const QUARTER_TURN: u8 = 7;
