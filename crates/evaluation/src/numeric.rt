// The evaluation over the numbers of the records, three to a record, in a table of any length: for callers that have the numbers alone.
ghost use Rattle.std.specs.Prelude.{◌≡◌};
ghost use Rattle.structure.specs.Evaluation.{Evaluated};

use book::NoAnswer;
use encoding::Build;
use records::{UNUSED, publish};
use structure::Structure;

// Evaluates the book at state 1 of the structure of n states and v variables, by a table of its own for the records, as many as are read: one pass over
// them more, and 3,072 bytes of stack.
pub fn evaluate(
    book: &[u8],
    states: &[u16],
    n: usize,
    words: &[u32],
    v: usize,
    values: &[u8],
    work: &mut [u8],
) -> Result<bool, NoAnswer>
    ensures { Evaluated book.now states.now n words.now v values.now work.old work.new result }
{
    let mut table = [UNUSED; Build::STATES];
    let read = (states.len() / 3).min(Build::STATES);
    publish(&mut table, states, read);
    let structure = Structure {
        states: &table[..read],
        states_count: n,
        words,
        variables_count: v,
        values,
    };
    super::evaluate(book, &structure, work)
}
