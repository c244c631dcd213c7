// Fields of a run. A field is one byte of tag, two bytes of the body's length, the body, little-endian.
// Each call answers for any bytes and any place.
#![tactic(auto)]

ghost use Rattle.std.specs.Prelude.{◌≡◌};
ghost use Rattle.refusals.specs.Refusal.{row_at_answer_of};
ghost use Rattle.runlaws.specs.Run.{start_width};
ghost use Rattle.fields.specs.Meaning.{field_in, place_in, head_of, head_call, body_call, start_call};

use refusals::{Row, RowAt};

// The most bytes of a run.
pub const MOST_BYTES: usize = 65536;

// The bytes before a body: the tag and the body's length.
const HEAD_BYTES: usize = 3;

// The tag of a start field, a byte of the format, and the bytes of the whole field: the steps begin behind them.
pub const START: u8 = 1;

pub const START_BYTES: usize = 4;

// A field by its tag and the place of the next field's tag; its body is handed out by `body`.
#[derive(Clone, Copy)]
pub struct Head {
    pub tag: u8,
    pub next: usize,
}

// The field whose tag stands at `at`; 14 there where it is cut, 14 at 0 where the run is too long.
pub fn field(run: &[u8], at: usize) -> Result<Head, RowAt>
    ensures { row_at_answer_of head_of result ≡ head_call (place_in run.now at) (field_in run.now at) }
{
    if MOST_BYTES < run.len() {
        return Err(RowAt {
            row: Row::BadField,
            at: 0,
        });
    }
    let cut = Err(RowAt {
        row: Row::BadField,
        at,
    });
    let Some(part) = run.get(at..) else {
        return cut;
    };
    let [tag, low, high, rest @ ..] = part else {
        return cut;
    };
    let size = usize::from(u16::from_le_bytes([*low, *high]));
    if rest.len() < size {
        return cut;
    }
    Ok(Head {
        tag: *tag,
        next: at + HEAD_BYTES + size,
    })
}

// The body of the field at `at`, as a part of the run; nothing of it where the field is refused.
pub fn body(run: &[u8], at: usize) -> &[u8]
    ensures { result.now ≡ body_call (field_in run.now at) }
{
    match field(run, at) {
        Ok(head) => &run[at + HEAD_BYTES..head.next],
        Err(_) => &[],
    }
}

// The width that the first field gives if it is a start field, whatever width; 14 at 0 where it is none.
pub fn start(run: &[u8]) -> Result<usize, RowAt>
    ensures { row_at_answer_of (λ n. n) result ≡ start_call (start_width (field_in run.now 0)) }
{
    let row = Row::BadField;
    let unbegun = Err(RowAt { row, at: 0 });
    let head = field(run, 0)?;
    if head.tag != START {
        return unbegun;
    }
    let [width] = body(run, 0) else {
        return unbegun;
    };
    Ok(usize::from(*width))
}
