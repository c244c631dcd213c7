// The answers of the third layer as a caller in another language sees them.
ghost use Rattle.std.specs.Prelude.{◌≡◌};
ghost use Rattle.activepauli.specs.Active.{active_of};
ghost use Rattle.steps.specs.Meaning.{step_of, read_of};
ghost use Rattle.checker.specs.Meaning.{survey_fields_of};
ghost use Rattle.runner.specs.Meaning.{finished_of};
ghost use Rattle.folder.specs.Meaning.{folded_of};
ghost use Rattle.reporter.specs.Meaning.{told_of};
ghost use Rattle.refusals.specs.Refusal.{row_at_answer_of, refusal_answer_of};
ghost use Rattle.runlaws.specs.Run.{mapped};
ghost use Rattle.verdicts.specs.Verdict.{Seen};
ghost use Rattle.run_exports.specs.Nothing.{no_survey, no_ending, no_folding, no_report};
ghost use Rattle.run_exports.specs.Ending.{seen_ending_of};
ghost use Rattle.run_exports.specs.Folding.{seen_folding_of};
ghost use Rattle.run_exports.specs.Report.{report_seen, seen_report_of};
ghost use Rattle.run_exports.specs.Reading.{step_seen, pauli_seen, bare_seen, read_seen, seen_field_of, seen_read_of};

use active_seen::identity_on_none;
use activepauli::ActivePauli;
use checker::Survey;
use folder::Folded;
use ledger::Ledger;
use refusals::{Refusal, RowAt};
use reporter::Flag;
use runner::Finished;
use steps::{Read, Step, tag};
use verdicts::{Verdict, verdict_and_value};

// Beside a refusal all numbers of the survey are 0.
#[repr(C)]
#[derive(Clone, Copy)]
pub struct SeenSurvey {
    pub verdict: Verdict,
    pub survey: Survey,
}

impl From<Result<Survey, RowAt>> for SeenSurvey {
    ghost from_gives = { λ answer seen.
        Seen seen.verdict (survey_fields_of seen.survey) no_survey (row_at_answer_of survey_fields_of answer) };

    fn from(answer: Result<Survey, RowAt>) -> SeenSurvey {
        let none = Survey {
            width: 0,
            steps: 0,
            greatest: 0,
            scratch: 0,
        };
        let (verdict, survey) = verdict_and_value(answer, none);
        SeenSurvey { verdict, survey }
    }
}

// Beside a refusal the width and the steps are 0.
#[repr(C)]
#[derive(Clone, Copy)]
pub struct SeenEnding {
    pub verdict: Verdict,
    pub width: usize,
    pub steps: usize,
}

impl From<Result<Finished, Refusal>> for SeenEnding {
    ghost from_gives = { λ answer seen.
        Seen seen.verdict (seen_ending_of seen) no_ending (refusal_answer_of finished_of answer) };

    fn from(answer: Result<Finished, Refusal>) -> SeenEnding {
        let none = Finished { width: 0, steps: 0 };
        let (verdict, finished) = verdict_and_value(answer, none);
        SeenEnding {
            verdict,
            width: finished.width,
            steps: finished.steps,
        }
    }
}

// The end Pauli, and how many bytes are left. Beside a refusal the identity on no qubits, and 0.
#[repr(C)]
#[derive(Clone, Copy)]
pub struct SeenFolding {
    pub verdict: Verdict,
    pub end: ActivePauli,
    pub size: usize,
}

impl From<Result<Folded, Refusal>> for SeenFolding {
    ghost from_gives = { λ answer seen.
        Seen seen.verdict (seen_folding_of seen) no_folding (refusal_answer_of folded_of answer) };

    fn from(answer: Result<Folded, Refusal>) -> SeenFolding {
        let none = Folded {
            end: identity_on_none(),
            size: 0,
        };
        let (verdict, folded) = verdict_and_value(answer, none);
        SeenFolding {
            verdict,
            end: folded.end,
            size: folded.size,
        }
    }
}

// By `kind`: 0 the step has no sign or branch, 1 it is kept, 2 it is changed. The mask is 0 beside no flag, and both are 0
// beside a refusal.
#[repr(C)]
#[derive(Clone, Copy)]
pub struct SeenReport {
    pub verdict: Verdict,
    pub kind: u8,
    pub mask: u64,
}

fn kind_and_mask(report: Option<Flag>) -> (u8, u64)
    ensures { record { kind = result.0; mask = result.1 } ≡ report_seen (told_of report) }
{
    match report {
        None => (0, 0),
        Some(flag) => if flag.changed {
            (2, flag.mask)
        } else {
            (1, flag.mask)
        },
    }
}

impl From<Result<Option<Flag>, Refusal>> for SeenReport {
    ghost from_gives = { λ answer seen.
        Seen seen.verdict (seen_report_of seen) no_report (mapped report_seen (refusal_answer_of told_of answer)) };

    fn from(answer: Result<Option<Flag>, Refusal>) -> SeenReport {
        let (verdict, report) = verdict_and_value(answer, None);
        let (kind, mask) = kind_and_mask(report);
        SeenReport {
            verdict,
            kind,
            mask,
        }
    }
}

// A run's answer, and the ledger behind it.
#[repr(C)]
#[derive(Clone, Copy)]
pub struct SeenServed {
    pub ending: SeenEnding,
    pub ledger: Ledger,
}

// A field of a run by its tag: 2 to 5 and 7 a step, 6 the end. `flag` is a rotation's sign or a projection's branch. What
// the field does not have is the identity on no qubits, false, 0 or +0; a projection's one float is the first.
#[repr(C)]
#[derive(Clone, Copy)]
pub struct SeenField {
    pub tag: u8,
    pub pauli: ActivePauli,
    pub flag: bool,
    pub pivot: usize,
    pub first: f64,
    pub second: f64,
}

// A field that has a Pauli and nothing else.
fn of_pauli(tag: u8, pauli: ActivePauli) -> SeenField
    ensures { seen_field_of result ≡ pauli_seen tag (active_of pauli) }
{
    SeenField {
        tag,
        pauli,
        flag: false,
        pivot: 0,
        first: 0.0,
        second: 0.0,
    }
}

// A field that has nothing but its tag.
pub(crate) fn bare(tag: u8) -> SeenField
    ensures { seen_field_of result ≡ bare_seen tag }
{
    of_pauli(tag, identity_on_none())
}

impl From<Step> for SeenField {
    ghost from_gives = { λ step seen. seen_field_of seen ≡ step_seen (step_of step) };

    fn from(step: Step) -> SeenField {
        match step {
            Step::Rotation(pauli, flag, first, second) => SeenField {
                tag: tag::ROTATION,
                pauli,
                flag,
                pivot: 0,
                first,
                second,
            },
            Step::Promotion(first, second) => {
                let pauli = identity_on_none();
                SeenField {
                    tag: tag::PROMOTION,
                    pauli,
                    flag: false,
                    pivot: 0,
                    first,
                    second,
                }
            }
            Step::Projection(pauli, pivot, flag, first) => SeenField {
                tag: tag::PROJECTION,
                pauli,
                flag,
                pivot,
                first,
                second: 0.0,
            },
            Step::Correction(pauli) => of_pauli(tag::CORRECTION, pauli),
            Step::QuarterTurn(pauli) => of_pauli(tag::QUARTER_TURN, pauli),
        }
    }
}

// The field at a cursor, and the cursor behind it. Beside a refusal the tag is 0, and so are the others.
#[repr(C)]
#[derive(Clone, Copy)]
pub struct SeenRead {
    pub verdict: Verdict,
    pub field: SeenField,
    pub at: usize,
    pub width: usize,
}

impl From<Result<Read, RowAt>> for SeenRead {
    ghost from_gives = { λ answer seen. seen_read_of seen ≡ read_seen (read_of answer) };

    fn from(answer: Result<Read, RowAt>) -> SeenRead {
        match answer {
            Ok(Read::Step(step, behind)) => SeenRead {
                verdict: verdicts::accepted(),
                field: SeenField::from(step),
                at: behind.at,
                width: behind.width,
            },
            Ok(Read::End(behind)) => SeenRead {
                verdict: verdicts::accepted(),
                field: bare(tag::END),
                at: behind.at,
                width: behind.width,
            },
            Err(refusal) => SeenRead {
                verdict: Verdict::from(refusal),
                field: bare(0),
                at: 0,
                width: 0,
            },
        }
    }
}
