// The whole listing of a run: `qubits` and the last width, then each basis with its amplitude, or `refused`
// and the number. The lines are those of the crate `lines`.
#![tactic(auto)]

ghost use Rattle.std.specs.Prelude.{◌≡◌, ◌+◌, ◌^◌, ◌≤◌, length};
ghost use Rattle.std.proofs.lemmas.List.Edits.{sets};
ghost use Rattle.amplitudelaws.specs.State.{State, state_of};
ghost use Rattle.amplitudelaws.specs.Lent.{Room};
ghost use Rattle.framelaws.specs.Caller.{widest_run};
ghost use Rattle.lines.specs.Calls.{Lined};
ghost use Rattle.lines.specs.Lines.{amplitude_line};
ghost use Rattle.listing.specs.Listing.{amplitude_lines, state_text, listed};
ghost use Rattle.listing.specs.Refused.{refused_line};

use callers::Caller;
use refusals::{Refusal, Row};

// Room for the widest state, and in the scratch for what a projection leaves of it.
const STATE: usize = 4096;

const SCRATCH: usize = 2048;

// Runs a run from amplitude (1, 0) at basis 0 and writes its listing to the start of `out`: the answer is the
// text's length, or row 16 where `out` is too short for it, which is then left as it was.
pub fn list_run(run: &[u8], out: &mut [u8]) -> Result<usize, Row>
    ensures { Lined (listed run.now) out.old result out.new }
{
    let mut re = [0.0; STATE];
    let mut im = [0.0; STATE];
    let mut scratch_re = [0.0; SCRATCH];
    let mut scratch_im = [0.0; SCRATCH];
    re[0] = 1.0;
    let ran = runner::run_contiguous(
        run,
        &mut re,
        &mut im,
        &mut scratch_re,
        &mut scratch_im,
        Caller::Service,
    );
    match ran {
        Ok(finished) => list_state(&re, &im, finished.width, out),
        Err(refusal) => list_refused(refusal, out),
    }
}

// A refusal. Its place is not listed.
fn list_refused(refusal: Refusal, out: &mut [u8]) -> Result<usize, Row>
    ensures { Lined (refused_line refusal) out.old result out.new }
{
    match refusal {
        Refusal::Whole(row) => lines::refused(u8::from(row), out),
        Refusal::At(row_at) => lines::refused(u8::from(row_at.row), out),
    }
}

// A state. The text's length is known before anything is written.
fn list_state(re: &[f64], im: &[f64], width: usize, out: &mut [u8]) -> Result<usize, Row>
    requires { (width ≤ widest_run) × Room width re.now im.now }
    ensures { Lined (state_text width (state_of re.now im.now)) out.old result out.new }
{
    let dim = 1usize << width;
    let len = 8 + lines::decimal_length(width as u64) + lines_length(dim);
    if out.len() < len {
        return Err(Row::OutputTooShort);
    }
    let first = lines::qubits(width, out).unwrap();
    put_lines(re, im, dim, first, out);
    Ok(len)
}

// The length of the lines of the bases below `dim`, whatever their amplitudes.
fn lines_length(dim: usize) -> usize
    requires { dim ≤ 2 ^ widest_run }
    ensures { (S : State) → result ≡ length (amplitude_lines S dim) }
{
    let mut len = 0;
    for b in 0..dim {
        len += lines::decimal_length(b as u64) + 35;
    }
    len
}

// Puts the lines of the bases below `dim` at `at`.
fn put_lines(re: &[f64], im: &[f64], dim: usize, at: usize, out: &mut [u8])
    requires dim_in_bounds { (dim ≤ length re.now) × (dim ≤ length im.now) }
    requires dim_in_bounds_2 { at + length (amplitude_lines (state_of re.now im.now) dim) ≤ length out.old }
    ensures { out.new ≡ sets out.old at (amplitude_lines (state_of re.now im.now) dim) }
{
    let mut end = at;
    for b in 0..dim {
        end = put_line(b, re[b], im[b], end, out);
    }
}

// Puts one of them at `at`, and answers where it ends.
fn put_line(basis: usize, re: f64, im: f64, at: usize, out: &mut [u8]) -> usize
    requires { at + length (amplitude_line basis re im) ≤ length out.old }
    ensures value { result ≡ at + length (amplitude_line basis re im) }
    ensures out_after { out.new ≡ sets out.old at (amplitude_line basis re im) }
{
    at + lines::amplitude(basis, re, im, &mut out[at..]).unwrap()
}
