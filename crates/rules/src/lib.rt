// Document 01, "The build": what is done to a variable. The three rules at one place v: what a phase does to the variable of state s that stands there.
// A call takes what 01 names: the states, a slice of records, which a build lends whole; the draft; the counts by value; the state, the variable, its relation and
// parts. That the parents are below and the numbers low holds in the middle of a build alone, so it stands in the clauses.
#![tactic(auto)]

mod classes;

ghost use Rattle.std.specs.Prelude.{◌≡◌, ◌*◌, ◌/◌, ◌≤◌, ◌<◌, length, get_or};
ghost use Rattle.book.specs.Held.{nodes_in};
ghost use Rattle.records.specs.Table.{numbers_of};
ghost use Rattle.encoding.specs.Build as def;
ghost use Rattle.encoding.specs.Limits.{max_states, max_variables};
ghost use Rattle.encoding.specs.Holds.{Holds};
ghost use Rattle.encoding.specs.Drafts.{SameDraft, words_in, held};
ghost use Rattle.encoding.specs.Shows.{Low, Parents, counted, after};
ghost use Rattle.rules.specs.Does.{Sees, Asking, Making, Pushing};

use book::Book;
use classes::{conjunctive, disjunctive, existential, universal};
use encoding::{Counts, Draft, Index, Over, key_at};
use records::State;
use signed::{Class, classify};

// The class of the variable at place v. Inlined, so that a rule forms only the parts that it asks for.
#[inline(always)]
fn role(book: &Book, index: &Index, v: usize) -> Class
    requires { v < max_variables }
    ensures { Sees (nodes_in book.now) v index.now.words.now result }
{
    classify(book, key_at(index.words, v))
}

// Phase 1: a conjunctive or disjunctive variable.
#[tactic(auto, using(crate::proofs::Seeing::tame_of), unfolding(signed::specs::Asking::Tame))]
pub fn rule1(book: &Book, draft: &mut Draft, c: Counts, s: usize, v: usize) -> Result<Counts, Over>
    requires room { (s ≤ c.states) × (v < c.variables) }
    requires here { get_or (words_in draft.old) v 0 / 2048 ≡ s }
    requires indexed { Holds c.variables draft.old.index.now }
    ensures does { Asking (λ φ. def.by φ (def.rule1 φ) s v) (nodes_in book.now) (counted c) (after result) (words_in draft.old) (words_in draft.new) draft.old.clauses.now draft.new.clauses.now }
    ensures indexed { Holds (after result).variables draft.new.index.now }
    ensures same { SameDraft draft.old draft.new }
{
    match role(book, draft.index, v) {
        Class::Conjunctive(l, m) => conjunctive(draft, c, s, v + 1, l, m),
        Class::Disjunctive(l, m) => disjunctive(draft, c, s, v + 1, l, m),
        _ => Ok(c),
    }
}

// Phase 2: an existential variable.
#[tactic(auto, using(crate::proofs::Seeing::tame_of), unfolding(signed::specs::Asking::Tame))]
pub fn rule2(
    book: &Book,
    states: &mut [State],
    draft: &mut Draft,
    c: Counts,
    s: usize,
    v: usize,
) -> Result<Counts, Over>
    requires room { (s ≤ c.states) × (v < c.variables) }
    requires here { get_or (words_in draft.old) v 0 / 2048 ≡ s }
    requires indexed { Holds c.variables draft.old.index.now }
    requires long { max_states ≤ length states.old }
    ensures does { Making s (λ φ. def.by φ (def.rule2 φ) s v) (nodes_in book.now) (counted c) (after result)
        (held states.old draft.old)
        (held states.new draft.new) }
    ensures indexed { Holds (after result).variables draft.new.index.now }
    ensures same { SameDraft draft.old draft.new }
{
    match role(book, draft.index, v) {
        Class::Existential(r, l) => existential(states, draft, c, s, v + 1, r, l),
        _ => Ok(c),
    }
}

// Phase 3: a universal variable. It reads the states, where phase 2 makes some, so that one function for both would be no plainer. `before` is how many
// states there were before phase 2.
#[tactic(auto, using(crate::proofs::Seeing::tame_of), unfolding(signed::specs::Asking::Tame))]
pub fn rule3(
    book: &Book,
    states: &[State],
    draft: &mut Draft,
    c: Counts,
    before: usize,
    s: usize,
    v: usize,
) -> Result<Counts, Over>
    requires room { (v < c.variables) × (before ≤ c.states) }
    requires here { get_or (words_in draft.old) v 0 / 2048 ≡ s }
    requires indexed { Holds c.variables draft.old.index.now }
    requires long { max_states ≤ length states.now }
    requires low { Low (numbers_of states.now) × Parents before s (numbers_of states.now) }
    ensures does { Pushing (λ φ. def.by φ (def.rule3 φ) s v) (nodes_in book.now) (counted c) (after result)
        (held states.now draft.old)
        (held states.now draft.new) }
    ensures indexed { Holds (after result).variables draft.new.index.now }
    ensures same { SameDraft draft.old draft.new }
{
    match role(book, draft.index, v) {
        Class::Universal(r, l) => universal(states, draft, c, before, s, v + 1, r, l),
        _ => Ok(c),
    }
}
