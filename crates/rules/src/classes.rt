// What is done to a variable of each class. `a` is the variable, l and m are its parts; the classes are the four of document 01.
ghost use Rattle.std.specs.Prelude.{◌≡◌, ◌+◌, ◌*◌, ◌≤◌, ◌<◌, length};
ghost use Rattle.signed.specs.Signed as class;
ghost use Rattle.records.specs.Table.{numbers_of};
ghost use Rattle.encoding.specs.Build as def;
ghost use Rattle.encoding.specs.Limits.{max_states, max_variables};
ghost use Rattle.encoding.specs.Holds.{Holds};
ghost use Rattle.encoding.specs.Drafts.{SameDraft, words_in, held};
ghost use Rattle.encoding.specs.Shows.{Low, Parents, counted, after};
ghost use Rattle.rules.specs.Does.{TwoParts, Opens, Pushes};

use clauses::{three, two};
use encoding::{Counts, Draft, Over, make, write};
use records::State;
use signed::Ask;

// "Conjunctive a: ask both parts, first part first; write (−a, l1), (−a, l2)."
pub fn conjunctive(
    draft: &mut Draft,
    c: Counts,
    s: usize,
    a: usize,
    l: Ask,
    m: Ask,
) -> Result<Counts, Over>
    requires room { (s ≤ c.states) × (a ≤ max_variables) × (l.key < 2048) × (m.key < 2048) }
    requires indexed { Holds c.variables draft.old.index.now }
    ensures does { TwoParts class.conjunctive s a l m (counted c) (after result) (words_in draft.old) (words_in draft.new) draft.old.clauses.now draft.new.clauses.now }
    ensures indexed { Holds (after result).variables draft.new.index.now }
    ensures same { SameDraft draft.old draft.new }
{
    let x = draft.index.ask(c, s, l.key)?;
    let y = draft.index.ask(x.counts, s, m.key)?;
    let d = write(draft.clauses, y.counts, two(a, x.variable, l.minus))?;
    write(draft.clauses, d, two(a, y.variable, m.minus))
}

// "Disjunctive b: ask both; write (−b, l1, l2)." One function with the one above would be no plainer: each writes clauses of its own shape.
pub fn disjunctive(
    draft: &mut Draft,
    c: Counts,
    s: usize,
    a: usize,
    l: Ask,
    m: Ask,
) -> Result<Counts, Over>
    requires room { (s ≤ c.states) × (a ≤ max_variables) × (l.key < 2048) × (m.key < 2048) }
    requires indexed { Holds c.variables draft.old.index.now }
    ensures does { TwoParts class.disjunctive s a l m (counted c) (after result) (words_in draft.old) (words_in draft.new) draft.old.clauses.now draft.new.clauses.now }
    ensures indexed { Holds (after result).variables draft.new.index.now }
    ensures same { SameDraft draft.old draft.new }
{
    let x = draft.index.ask(c, s, l.key)?;
    let y = draft.index.ask(x.counts, s, m.key)?;
    let clause = three(a, x.variable, l.minus, y.variable, m.minus);
    write(draft.clauses, y.counts, clause)
}

// "make the next state (parent, relation, p), ask it for the part, write (−p, l)."
pub fn existential(
    states: &mut [State],
    draft: &mut Draft,
    c: Counts,
    s: usize,
    a: usize,
    r: usize,
    l: Ask,
) -> Result<Counts, Over>
    requires room { (s ≤ c.states) × (a ≤ max_variables) × (r < 16) × (l.key < 2048) }
    requires indexed { Holds c.variables draft.old.index.now }
    requires long { max_states ≤ length states.old }
    ensures does { Opens s a r l (counted c) (after result)
        (held states.old draft.old)
        (held states.new draft.new) }
    ensures indexed { Holds (after result).variables draft.new.index.now }
    ensures same { SameDraft draft.old draft.new }
{
    let d = make(states, c, s, r, a)?;
    let x = draft.index.ask(d, d.states, l.key)?;
    write(draft.clauses, x.counts, two(a, x.variable, l.minus))
}

// "its successors of that relation in number order, made by p: ask the successor for the part, write (−n, −p, l)." Only the states that this state's
// existential variables have made can be its successors: `before` is how many there were before they were made. One turn for each of them.
pub fn universal(
    states: &[State],
    draft: &mut Draft,
    c: Counts,
    before: usize,
    s: usize,
    a: usize,
    r: usize,
    l: Ask,
) -> Result<Counts, Over>
    requires room { (a ≤ max_variables) × (l.key < 2048) }
    requires before_le_states { before ≤ c.states }
    requires indexed { Holds c.variables draft.old.index.now }
    requires long { max_states ≤ length states.now }
    requires low { Low (numbers_of states.now) × Parents before s (numbers_of states.now) }
    ensures does { Pushes (λ φ v p. def.rule3 φ s v (class.universal r p)) a l (counted c) (after result)
        (held states.now draft.old)
        (held states.now draft.new) }
    ensures indexed { Holds (after result).variables draft.new.index.now }
    ensures same { SameDraft draft.old draft.new }
{
    let mut d = c;
    for j in before..c.states {
        d = push(states, draft, d, s, a, r, l, j)?;
    }
    Ok(d)
}

// The state at place j, if it is a successor by that relation.
fn push(
    states: &[State],
    draft: &mut Draft,
    c: Counts,
    s: usize,
    a: usize,
    r: usize,
    l: Ask,
    j: usize,
) -> Result<Counts, Over>
    requires room { (a ≤ max_variables) × (l.key < 2048) × (j < c.states) }
    requires indexed { Holds c.variables draft.old.index.now }
    requires long { max_states ≤ length states.now }
    requires low { Low (numbers_of states.now) }
    ensures does { Pushes (λ φ v p. def.push φ s v r p j) a l (counted c) (after result)
        (held states.now draft.old)
        (held states.now draft.new) }
    ensures indexed { Holds (after result).variables draft.new.index.now }
    ensures same { SameDraft draft.old draft.new }
{
    let d = states[j];
    let child = usize::from(d.parent) == s;
    let reached = usize::from(d.relation) == r;
    if !child || !reached {
        return Ok(c);
    }
    let x = draft.index.ask(c, j + 1, l.key)?;
    let clause = three(a, usize::from(d.maker), true, x.variable, l.minus);
    write(draft.clauses, x.counts, clause)
}
