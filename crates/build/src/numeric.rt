// The build over numbers alone, three for each state, for a caller that has no table. Numbers beyond those of 512 states are never touched.
ghost use Rattle.std.specs.Prelude.{◌<◌};
ghost use Rattle.book.specs.Held.{nodes_in};
ghost use Rattle.encoding.specs.Build.{built};
ghost use Rattle.encoding.specs.Limits.{Long};
ghost use Rattle.build.specs.Filled.{Filled};

use crate::Oversized;
use book::Book;
use encoding::Build;
use records::{UNUSED, gather};

// Builds the clauses of node `root` as the crate's `fill` does, into a table of its own, whose records become the numbers.
pub fn fill(
    book: &Book,
    root: usize,
    states: &mut [u16],
    words: &mut [u32],
    clauses: &mut [i16],
) -> Result<Build, Oversized>
    requires root { root < book.now.nodes }
    requires long { Long states.old words.old clauses.old }
    ensures { Filled (built (nodes_in book.now) root) states.old words.old clauses.old states.new words.new clauses.new result }
{
    let mut table = [UNUSED; Build::STATES];
    let answer = crate::fill(book, root, &mut table, words, clauses);
    gather(&table, states, Build::STATES);
    answer
}
