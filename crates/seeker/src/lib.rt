// Seeking: which Pauli, noted before a run, is carried to a given one at its end. A phase that is raised at the
// start is raised at the end, and the masks at the end are a linear function of those at the start. So each mask of
// one bit is carried, at most 24 of them, and the masks of the end are sought among the sums of what they become.
#![tactic(auto)]

mod elimination;
mod mask_word;
mod search;

ghost use Rattle.std.specs.Prelude.{◌≡◌};
ghost use Rattle.activepauli.specs.Active.{active_of};
ghost use Rattle.callers.specs.Meaning.{caller_of};
ghost use Rattle.refusals.specs.Refusal.{refusal_answer_of};
ghost use Rattle.runlaws.specs.Calls.{seeking};

use activepauli::ActivePauli;
use callers::Caller;
use refusals::Refusal;
use search::Search;

// Some Pauli on the start qubits that the run carries to `end`, which is on the last qubits; or the run's own
// refusal with its place, or 3, 4 or 25.
pub fn seek_start(run: &[u8], end: ActivePauli, caller: Caller) -> Result<ActivePauli, Refusal>
    ensures { refusal_answer_of active_of result ≡ seeking (caller_of caller) run.now (active_of end) }
{
    let limits = caller.limits();
    let checked = checker::check_with_start(run, limits)?;
    passing::placed_row(end, checked.survey.width)?;
    let search = Search {
        run,
        limits,
        width: checked.start,
        last: end.nqubits,
    };
    let left = search.remainder(end);
    Ok(search.start_for(end, left)?)
}
