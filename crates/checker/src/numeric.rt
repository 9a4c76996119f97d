// The check for callers whose state table is numbers, three to a record, and not records.
ghost use Rattle.std.specs.Prelude.{◌≡◌};
ghost use Rattle.checker.specs.Checked.{lent, told};
ghost use Rattle.checker.specs.Meant.{Promised};
ghost use Rattle.checker.specs.Steps.{shown_of};

use super::{Answer, Lent};
use book::NoAnswer;
use encoding::Build;
use records::{UNUSED, gather};

// The answer to the book in these bytes within a budget of search nodes, as over a table of records. Nothing is asked of the buffers' lengths, and what
// of the numbers lies beyond 512 records isn't touched.
pub fn check(
    bytes: &[u8],
    budget: u32,
    states: &mut [u16],
    words: &mut [u32],
    clauses: &mut [i16],
    values: &mut [u8],
    work: &mut [u16],
) -> Result<Answer, NoAnswer>
    ensures { Promised bytes.now budget (lent states.old words.old clauses.old values.old work.old) (lent states.new words.new clauses.new values.new work.new) result }
{
    if states.len() < 3 * Build::STATES {
        return Err(NoAnswer::Lent);
    }
    let mut table = [UNUSED; Build::STATES];
    let mut buffers = Lent {
        states: &mut table,
        words,
        clauses,
        values,
        work,
    };
    let answer = super::check(bytes, budget, &mut buffers);
    gather(&table, states, shown(answer));
    answer
}

// How many records an answer fills.
#[tactic(auto, unfolding(crate::specs::Steps::shown_of))]
fn shown(answer: Result<Answer, NoAnswer>) -> usize
    ensures { result ≡ shown_of (told answer).number }
{
    match answer {
        Ok(_) | Err(NoAnswer::Oversized) => Build::STATES,
        Err(NoAnswer::Lent | NoAnswer::Refused(_)) => 0,
    }
}
