// Document 01, "The structure": the separate check that evaluates a book on the structure read back. Nothing is asked of what the buffers hold.
#![tactic(auto)]

mod nodes;
pub mod numeric;
mod rows;

ghost use Rattle.std.specs.Prelude.{◌≡◌};
ghost use Rattle.structure.specs.Evaluation.{Evaluated};
ghost use Rattle.structure.specs.Held.{numbers};
ghost use Rattle.evaluation.specs.Nodes.{fits};

use book::{Book, NoAnswer, read};
use encoding::Build;
use nodes::root_holds;
use structure::{ATOMS, Structure};

// The rulebook's most nodes.
pub const NODES: usize = 512;

// The bytes of working space that an evaluation is lent: a mark for each state, in a row for the lives, for each atom and for each node.
pub const WORK: usize = (1 + ATOMS + NODES) * Build::STATES;

// Evaluates the book at state 1 of the structure. However nodes are shared, it makes at most two passes over the states for each node, one over the
// records and one over the words, and clears the working space.
#[tactic(auto, using(crate::proofs::Answering::room))]
pub fn evaluate(book: &[u8], structure: &Structure, work: &mut [u8]) -> Result<bool, NoAnswer>
    ensures { Evaluated book.now (numbers structure.now) structure.now.states_count structure.now.words.now structure.now.variables_count structure.now.values.now work.old work.new result }
{
    if !all_fit(structure, work.len()) {
        return Err(NoAnswer::Lent);
    }
    let header = read(book)?;
    let accepted = Book::accepted(book, header);
    Ok(root_holds(&accepted, header.root, structure, work))
}

// Whether the lent buffers, the working space among them, have their sizes, and the totals are those of a build.
fn all_fit(structure: &Structure, space: usize) -> bool
    ensures { result ≡ fits structure.now space }
{
    structure.states_fit() && structure.words_fit() && structure.values_fit() && WORK <= space
}
