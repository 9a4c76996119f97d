// "Then for each state in number order": the loop over the states.
ghost use Rattle.std.specs.Prelude.{◌≡◌, ◌*◌, ◌≤◌, ◌<◌, length};
ghost use Rattle.book.specs.Held.{nodes_in};
ghost use Rattle.records.specs.Table.{numbers_of};
ghost use Rattle.encoding.specs.Limits.{max_states, Long};
ghost use Rattle.encoding.specs.Holds.{Holds};
ghost use Rattle.encoding.specs.Drafts.{SameDraft, words_in, held};
ghost use Rattle.encoding.specs.Shows.{Low, Parents, buffers, after};
ghost use Rattle.build.specs.Steps.{Begins, Runs};

use crate::phases::expand;
use book::Book;
use clauses::one;
use encoding::{Build, Counts, Draft, Index, Over, write};
use records::State;
use signed::strip;

// "ask it for the root under plus; write that literal as a clause of one."
fn begin(book: &Book, root: usize, draft: &mut Draft) -> Result<Counts, Over>
    requires root { root < book.now.nodes }
    requires indexed { Holds 0 draft.old.index.now }
    ensures does { Begins root (nodes_in book.now) (after result) (words_in draft.old) (words_in draft.new) draft.old.clauses.now draft.new.clauses.now }
    ensures indexed { Holds (after result).variables draft.new.index.now }
    ensures same { SameDraft draft.old draft.new }
{
    let l = strip(&book.table, root, false);
    let x = draft.index.ask(Build::start(), 1, l.key)?;
    write(draft.clauses, x.counts, one(x.variable, l.minus))
}

// One turn for each state, also for those that the turns make: a range would be fixed too early.
fn grow(book: &Book, root: usize, states: &mut [State], draft: &mut Draft) -> Result<Counts, Over>
    requires root { root < book.now.nodes }
    requires indexed { Holds 0 draft.old.index.now }
    requires long { max_states ≤ length states.old }
    requires low { Low (numbers_of states.old) × Parents 1 1 (numbers_of states.old) }
    ensures does { Runs root (nodes_in book.now) (after result)
        (held states.old draft.old)
        (held states.new draft.new) }
    ensures same { SameDraft draft.old draft.new }
{
    let mut d = begin(book, root, draft)?;
    let mut j: usize = 0;
    while j < d.states {
        d = expand(book, states, draft, d, j)?;
        j += 1;
    }
    Ok(d)
}

// The whole build. The words are found again by two lists, which are empty before the first is asked for.
pub fn run(
    book: &Book,
    root: usize,
    states: &mut [State],
    words: &mut [u32],
    clauses: &mut [i16],
) -> Result<Counts, Over>
    requires root { root < book.now.nodes }
    requires long { Long (numbers_of states.old) words.old clauses.old }
    requires low { Low (numbers_of states.old) × Parents 1 1 (numbers_of states.old) }
    ensures { Runs root (nodes_in book.now) (after result)
        (buffers (numbers_of states.old) words.old clauses.old)
        (buffers (numbers_of states.new) words.new clauses.new) }
{
    let mut finder = [0u16; Build::FINDER];
    let mut own = [0u16; Build::OWN];
    let mut index = Index {
        words,
        finder: &mut finder,
        own: &mut own,
    };
    let mut draft = Draft {
        index: &mut index,
        clauses,
    };
    grow(book, root, states, &mut draft)
}
