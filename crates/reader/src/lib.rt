// Steps of a run, read by the field at a cursor. A read answers for any bytes and any cursor, whoever calls.
#![tactic(auto)]

mod bodies;
mod number;

ghost use Rattle.std.specs.Prelude.{◌≡◌};
ghost use Rattle.std.proofs.Math.Option.{some};
ghost use Rattle.amplitudelaws.specs.Step.{width_after};
ghost use Rattle.refusals.specs.Refusal.{answer_of};
ghost use Rattle.runlaws.specs.Field.{Field};
ghost use Rattle.runlaws.specs.Reading.{decoded, read_field, read_at};
ghost use Rattle.callers.specs.Meaning.{limits_of};
ghost use Rattle.steps.specs.Meaning.{cursor_of, step_of, read_of};
ghost use Rattle.reader.specs.Meaning.{Narrowable, step_call, read_placed};

use callers::Limits;
use fields::Head;
use refusals::{Row, RowAt};
use steps::{Cursor, Read, Step, tag};

// The field at the cursor: a step that no row refuses, the end field, or the refusal. A cursor past the
// greatest width is where no run leads: 14 there.
pub fn read(run: &[u8], cursor: Cursor, limits: Limits) -> Result<Read, RowAt>
    ensures { read_of result ≡ read_at (limits_of limits) run.now (cursor_of cursor) }
{
    let head = fields::field(run, cursor.at)?;
    if limits.widest() < cursor.width {
        return Err(RowAt {
            row: Row::BadField,
            at: cursor.at,
        });
    }
    let held = fields::body(run, cursor.at);
    read_field(head, held, cursor, limits).map_err(|row| RowAt { row, at: cursor.at })
}

// A field's refusal stands at the field's tag.
fn read_field(head: Head, held: &[u8], cursor: Cursor, limits: Limits) -> Result<Read, Row>
    ensures { let field : Field = record { tag = head.tag; body = held.now; next = head.next } in
        read_placed cursor.at result ≡ read_field (limits_of limits) (cursor_of cursor) (some field) }
{
    if (head.tag == tag::END) & held.is_empty() {
        return Ok(Read::End(Cursor {
            at: head.next,
            width: cursor.width,
        }));
    }
    let step = decoded(head, held, cursor.width, limits)?;
    let behind = Cursor {
        at: head.next,
        width: width_after(cursor.width, step),
    };
    Ok(Read::Step(step, behind))
}

// The step by the field's tag and length; a field that has them from no row of the scope's table is 14 whatever its body.
fn decoded(head: Head, held: &[u8], width: usize, limits: Limits) -> Result<Step, Row>
    ensures { let field : Field = record { tag = head.tag; body = held.now; next = head.next } in
        answer_of step_of result ≡ step_call (limits_of limits) width (decoded width field) }
{
    match (head.tag, held.len()) {
        (tag::ROTATION, bodies::ROTATION_BYTES) => bodies::rotation(held, width),
        (tag::PROMOTION, bodies::PROMOTION_BYTES) => bodies::promotion(held, width, limits),
        (tag::PROJECTION, bodies::PROJECTION_BYTES) => bodies::projection(held, width),
        (tag::CORRECTION, bodies::CORRECTION_BYTES) => bodies::correction(held, width),
        (tag::QUARTER_TURN, bodies::QUARTER_TURN_BYTES) => bodies::quarter_turn(held, width),
        _ => Err(Row::BadField),
    }
}

// The width of the state behind a step that no row refuses.
fn width_after(width: usize, step: Step) -> usize
    requires { Narrowable width (step_of step) }
    ensures { result ≡ width_after width (step_of step) }
{
    match step {
        Step::Promotion(..) => width + 1,
        Step::Projection(..) => width - 1,
        Step::Rotation(..) | Step::Correction(_) | Step::QuarterTurn(_) => width,
    }
}
