// Document 01, "The build", over lent buffers: state records, variable words and clauses, filled by one pass over the states.
#![tactic(auto)]

pub mod numeric;
mod phases;
mod states;

ghost use Rattle.std.specs.Prelude.{◌≡◌, ◌<◌};
ghost use Rattle.book.specs.Held.{nodes_in};
ghost use Rattle.book.specs.declared.refusal.NoAnswer.TheVariants.{Oversized as oversized};
ghost use Rattle.records.specs.Table.{numbers_of};
ghost use Rattle.encoding.specs.Build.{built};
ghost use Rattle.encoding.specs.Limits.{Long};
ghost use Rattle.build.specs.Filled.{Filled};
ghost use Rattle.build.specs.Steps.{Cleared};

use book::{Book, NoAnswer};
use encoding::Build;
use ground::clear;
use records::{State, UNUSED};
use states::run;

// The build is over a limit.
#[derive(Clone, Copy, PartialEq, Eq, Debug)]
pub struct Oversized;

impl From<Oversized> for NoAnswer {
    ghost from_gives = { λ o n. n ≡ oversized };

    fn from(_: Oversized) -> NoAnswer {
        NoAnswer::Oversized
    }
}

// Builds the clauses of node `root`: the build stands in the buffers, with these totals; or it is over a limit (15).
pub fn fill(
    book: &Book,
    root: usize,
    states: &mut [State],
    words: &mut [u32],
    clauses: &mut [i16],
) -> Result<Build, Oversized>
    requires root { root < book.now.nodes }
    requires long { Long (numbers_of states.old) words.old clauses.old }
    ensures { Filled (built (nodes_in book.now) root)
        (numbers_of states.old) words.old clauses.old
        (numbers_of states.new) words.new clauses.new result }
{
    clear_all(states, words, clauses);
    match run(book, root, states, words, clauses) {
        Ok(counts) => Ok(Build::from(counts)),
        Err(_) => {
            clear_all(states, words, clauses);
            Err(Oversized)
        }
    }
}

// All 0 up to the stated sizes.
fn clear_all(states: &mut [State], words: &mut [u32], clauses: &mut [i16])
    requires { Long (numbers_of states.old) words.old clauses.old }
    ensures { Cleared (numbers_of states.old) words.old clauses.old (numbers_of states.new) words.new clauses.new }
{
    clear(states, UNUSED, Build::STATES);
    clear(words, 0, Build::VARIABLES);
    clear(clauses, 0, 3 * Build::CLAUSES);
}
