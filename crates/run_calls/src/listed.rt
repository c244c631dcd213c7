// Both listings, on one run, for the service: the run with a Pauli as a correction behind its start field, against
// the carried run with the end Pauli as one before its end field. Each is a file that is listed from basis 0, as bench
// does; a file that is too long for a run is listed too, as the refusal.
ghost use Rattle.std.specs.Prelude.{◌≡◌, length};

use crate::likeness::Likeness;
use crate::write;
use activepauli::ActivePauli;
use callers::Caller;
use pauli_calls::show;
use run_text::line;

// The bytes of an end field.
const END_BYTES: usize = 3;

// The bytes of a correction's whole field.
const CORRECTION_BYTES: usize = 20;

// Long enough for every listing.
const TEXT_BYTES: usize = 159754;

fn text_room() -> [u8; TEXT_BYTES]
    ensures { 159754 ≡ length result }
{
    [0; TEXT_BYTES]
}

pub(crate) fn both(run: &[u8], pauli: ActivePauli) -> Option<()> {
    let mut out = run_text::room(0xee);
    match carrier::carry_run(run, pauli, &mut out, Caller::Service) {
        Ok(end) => listings(run, pauli, out.get(..run.len())?, end),
        Err(refusal) => {
            show::refused(refusal);
            Some(())
        }
    }
}

// A run that was carried and the carried run both have a start and an end field and no more than 65,536 bytes, so nothing
// here is unread.
fn listings(run: &[u8], pauli: ActivePauli, carried: &[u8], end: ActivePauli) -> Option<()> {
    let mut left = text_room();
    let mut right = text_room();
    let left = listed(run, fields::START_BYTES, pauli, &mut left)?;
    let right = listed(
        carried,
        carried.len().checked_sub(END_BYTES)?,
        end,
        &mut right,
    )?;
    line::shown(left);
    write::bar();
    line::shown(right);
    write::bar();
    write::likeness(Likeness::of_equal(left == right));
    Some(())
}

// The listing of the run with the Pauli as a correction at `at`: none where there is no such file.
fn listed<'a>(run: &[u8], at: usize, pauli: ActivePauli, text: &'a mut [u8]) -> Option<&'a [u8]> {
    let mut file = run_text::room(0);
    let file = corrected(run, at, field(pauli), &mut file)?;
    let size = listing::list_run(file, text).ok()?;
    text.get(..size)
}

// The run with a field put in at `at`, written to the start of `file`: none where the run is shorter than `at`, or there is
// no room.
fn corrected<'a>(
    run: &[u8],
    at: usize,
    field: [u8; CORRECTION_BYTES],
    file: &'a mut [u8],
) -> Option<&'a [u8]> {
    let before = run.get(..at)?;
    let behind = &run[at..];
    let file = file.get_mut(..run.len() + CORRECTION_BYTES)?;
    file[..at].copy_from_slice(before);
    file[at..at + CORRECTION_BYTES].copy_from_slice(&field);
    file[at + CORRECTION_BYTES..].copy_from_slice(behind);
    Some(file)
}

// A correction's tag and its body's length, then the body: k, x, z.
fn field(pauli: ActivePauli) -> [u8; CORRECTION_BYTES] {
    let mut field = [0; CORRECTION_BYTES];
    field[0] = steps::tag::CORRECTION;
    field[1] = 17;
    field[3] = pauli.phase;
    field[4..12].copy_from_slice(&pauli.x.to_le_bytes());
    field[12..].copy_from_slice(&pauli.z.to_le_bytes());
    field
}
