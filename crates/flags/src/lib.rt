// The sign or branch of a step, as the byte of its field that it is.
#![tactic(auto)]

ghost use Rattle.std.specs.Prelude.{◌≡◌, ◌+◌, set};
ghost use Rattle.runlaws.specs.Flags.{flag_at};
ghost use Rattle.steps.specs.Meaning.{step_of};

use steps::Step;

// Where a rotation's field has its sign.
const SIGN_AT: usize = 20;

// Where a projection's field has its branch.
const BRANCH_AT: usize = 21;

// The step's sign or branch, written where the field that begins at `at` has it. Nothing is written where it has
// none, or where that place lies past the bytes.
#[tactic(auto, using(steps::proofs::Flag::byte_digit), unfolding(runlaws::specs::Flags::flag_at))]
pub fn write_flag(bytes: &mut [u8], at: usize, step: Step)
    ensures { bytes.new ≡ flag_at at (step_of step) bytes.old }
{
    match step {
        Step::Rotation(_, sign, ..) => write(bytes, at, SIGN_AT, sign as u8),
        Step::Projection(_, _, branch, _) => write(bytes, at, BRANCH_AT, branch as u8),
        Step::Promotion(..) | Step::Correction(_) | Step::QuarterTurn(_) => {}
    }
}

// The byte that is so far behind `at`, if there is one.
fn write(bytes: &mut [u8], at: usize, behind: usize, byte: u8)
    ensures { bytes.new ≡ set bytes.old (at + behind) byte }
{
    if at < bytes.len() && behind < bytes.len() - at {
        bytes[at + behind] = byte;
    }
}
