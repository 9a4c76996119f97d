// The phases of one state. Each goes from one of its variables to the next: a place of another state costs nothing. The rules write into the draft
// meanwhile, so that no iterator can hold it.
ghost use Rattle.std.specs.Prelude.{◌≡◌, ◌+◌, ◌*◌, ◌≤◌, ◌<◌, length};
ghost use Rattle.book.specs.Held.{nodes_in};
ghost use Rattle.records.specs.Table.{numbers_of};
ghost use Rattle.encoding.specs.Build as def;
ghost use Rattle.encoding.specs.Limits.{max_states};
ghost use Rattle.encoding.specs.Holds.{Holds};
ghost use Rattle.encoding.specs.Drafts.{SameDraft, words_in, held};
ghost use Rattle.encoding.specs.Shows.{Low, Parents, counted, after};
ghost use Rattle.rules.specs.Does.{Making, Pushing};
ghost use Rattle.build.specs.Steps.{Settling, Expands};

use book::Book;
use encoding::{Counts, Draft, Over};
use records::State;
use rules::{rule1, rule2, rule3};

// "1. Its keys by variable number, newly added ones too." One turn for each variable of the state, also for those that it adds.
fn phase1(book: &Book, draft: &mut Draft, c: Counts, s: usize) -> Result<Counts, Over>
    requires room { s ≤ c.states }
    requires indexed { Holds c.variables draft.old.index.now }
    ensures does { Settling s (nodes_in book.now) (counted c) (after result) (words_in draft.old) (words_in draft.new) draft.old.clauses.now draft.new.clauses.now }
    ensures indexed { Holds (after result).variables draft.new.index.now }
    ensures same { SameDraft draft.old draft.new }
{
    let mut d = c;
    let mut next = draft.index.first_of(s, c.variables);
    while let Some(v) = next {
        d = rule1(book, draft, d, s, v)?;
        next = draft.index.next_of(v, d.variables);
    }
    Ok(d)
}

// "2. Its existential variables p in number order". One turn for each variable of the state that is there when it begins.
fn phase2(
    book: &Book,
    states: &mut [State],
    draft: &mut Draft,
    c: Counts,
    s: usize,
) -> Result<Counts, Over>
    requires room { s ≤ c.states }
    requires indexed { Holds c.variables draft.old.index.now }
    requires long { max_states ≤ length states.old }
    ensures does { Making s (λ φ. def.phase2 φ s) (nodes_in book.now) (counted c) (after result)
        (held states.old draft.old)
        (held states.new draft.new) }
    ensures indexed { Holds (after result).variables draft.new.index.now }
    ensures same { SameDraft draft.old draft.new }
{
    let n = c.variables;
    let mut d = c;
    let mut next = draft.index.first_of(s, n);
    while let Some(v) = next {
        d = rule2(book, states, draft, d, s, v)?;
        next = draft.index.next_of(v, n);
    }
    Ok(d)
}

// "3. Its universal variables n in number order". The loop of phase 2, but over a rule that reads the states and makes none: as one function over a
// closure, the contract would be the closure's, no plainer. `before` is how many states there were before phase 2. One turn for each variable of the state that is
// there when it begins; none if phase 2 made no state, for then the state has no successors.
fn phase3(
    book: &Book,
    states: &[State],
    draft: &mut Draft,
    c: Counts,
    before: usize,
    s: usize,
) -> Result<Counts, Over>
    requires room { (s ≤ c.states) × (before ≤ c.states) }
    requires indexed { Holds c.variables draft.old.index.now }
    requires long { max_states ≤ length states.now }
    requires low { Low (numbers_of states.now) × Parents before s (numbers_of states.now) }
    ensures does { Pushing (λ φ. def.phase3 φ s) (nodes_in book.now) (counted c) (after result)
        (held states.now draft.old)
        (held states.now draft.new) }
    ensures indexed { Holds (after result).variables draft.new.index.now }
    ensures same { SameDraft draft.old draft.new }
{
    if c.states == before {
        return Ok(c);
    }
    let n = c.variables;
    let mut d = c;
    let mut next = draft.index.first_of(s, n);
    while let Some(v) = next {
        d = rule3(book, states, draft, d, before, s, v)?;
        next = draft.index.next_of(v, n);
    }
    Ok(d)
}

// The state at place j.
pub fn expand(
    book: &Book,
    states: &mut [State],
    draft: &mut Draft,
    c: Counts,
    j: usize,
) -> Result<Counts, Over>
    requires room { j < c.states }
    requires indexed { Holds c.variables draft.old.index.now }
    requires long { max_states ≤ length states.old }
    requires low { Low (numbers_of states.old) × Parents c.states (j + 1) (numbers_of states.old) }
    ensures does { Expands j (nodes_in book.now) (counted c) (after result)
        (held states.old draft.old)
        (held states.new draft.new) }
    ensures indexed { Holds (after result).variables draft.new.index.now }
    ensures same { SameDraft draft.old draft.new }
{
    let s = j + 1;
    let d = phase1(book, draft, c, s)?;
    let e = phase2(book, states, draft, d, s)?;
    phase3(book, states, draft, e, d.states, s)
}
