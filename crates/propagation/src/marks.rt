// The marks of a formula's variables, and the table of truths that shows them. All that assigns goes through `assign`, which keeps the number of unmet
// clauses, and all that undoes through `back`, which restores it. Both take the marks and the table, and `back` the trail, each by itself, as they do not ask
// what always holds of an `Assignment`: that the trail has room, and at `back` that the number of unmet clauses is known. Marks and table in a struct of
// their own were tried three ways; in each the proof loses what the marks are when the loan ends.
ghost use Rattle.std.specs.Prelude.{◌≡◌, ◌+◌, ◌≤◌, ◌<◌, List, ℕ, length, get_or, set};
ghost use Rattle.clauses.specs.Clause.{triples};
ghost use Rattle.propagation.specs.Links.{made};
ghost use Rattle.propagation.specs.Judging.{Mirrors, Shows};
ghost use Rattle.propagation.specs.Unmet as def;
ghost use Rattle.propagation.specs.Unmet.{Counts};
ghost use Rattle.propagation.specs.Trail.{pending, AllSaved, Backed, Plain, Undone};

use crate::clause::{clause_at, met, turned, weight};
use crate::formula::Formula;
use crate::links::head;
use crate::trail::{entry, latest_first, noted};

// A second branch that was made: how many entries the trail has then, and how many clauses are unmet.
#[derive(Clone, Copy, PartialEq, Eq, Debug)]
pub struct Second {
    pub top: usize,
    pub unmet: usize,
}

// Gives the variable at i the mark v, if there is one.
fn put(values: &mut [u8], truth: &mut [u8], i: usize, v: u8)
    requires { Mirrors values.old truth.old }
    ensures { (values.new ≡ set values.old i v) × Mirrors values.new truth.new }
{
    if i < values.len() {
        values[i] = v;
        truth[4097 + i] = weight(v);
        truth[4095 - i] = weight(turned(v));
    }
}

// Undoes what the entries from one up to another have assigned, none of them a first branch.
fn undo(values: &mut [u8], truth: &mut [u8], trail: &[u16], from: usize, to: usize)
    requires { Mirrors values.old truth.old × (from ≤ to) × (to ≤ length trail.now) × Plain trail.now from to }
    ensures { Undone trail.now from to values.old values.new × Mirrors values.new truth.new }
{
    for k in (from..to).rev() {
        put(values, truth, noted(trail[k]), 0);
    }
}

// How many unmet clauses hold the literal that the mark m makes true, of the variable at i, under the marks that the table shows. It costs no more than the
// clauses that hold it.
fn unmet_with(formula: Formula, truth: &[u8], i: usize, m: u8) -> usize
    requires { (i < formula.variables) × (a : List ℕ) × Shows formula truth.now a }
    ensures { (a : List ℕ) → Shows formula.entry truth.now a → result ≡ def.unmet_with a (made i m) (triples formula.entry.clauses.now) }
{
    let mut many: usize = 0;
    for j in formula.holders(head(i, m)) {
        if !met(clause_at(formula.clauses, j), truth) {
            many += 1;
        }
    }
    many
}

// Gives the unassigned variable at i the mark m, 1 or 2; so many clauses were unmet, and so many are now.
pub fn assign(
    formula: Formula,
    values: &mut [u8],
    truth: &mut [u8],
    i: usize,
    m: u8,
    unmet: usize,
) -> usize
    requires { (length values.old ≡ formula.variables) × Mirrors values.old truth.old × (i < length values.old) × (get_or values.old i 0 ≡ 0) × (0 < m) × (m < 3) × Counts formula.clauses.now values.old unmet }
    ensures { (values.new ≡ set values.old i m) × Mirrors values.new truth.new × Counts formula.entry.clauses.now values.new result }
{
    let met = unmet_with(formula, truth, i, m);
    put(values, truth, i, m);
    unmet - met
}

// Undoes what the first n entries of the trail have assigned, back to the latest first branch, and makes that one the second; none, if there is none. The
// number of unmet clauses is the one that was saved there. Each entry is undone once, so all going back costs no more than all assigning.
pub fn back(
    formula: Formula,
    values: &mut [u8],
    truth: &mut [u8],
    trail: &mut [u16],
    saved: &[u16],
    n: usize,
) -> Option<Second>
    requires { (length values.old ≡ formula.variables) × Mirrors values.old truth.old × (n ≤ length trail.old) × (n ≤ length saved.now) × AllSaved formula.clauses.now saved.now (pending values.old trail.old n) }
    ensures { Backed formula.entry.clauses.now n values.old trail.old values.new trail.new result × Mirrors values.new truth.new }
{
    let k = latest_first(trail, n)?;
    let i = noted(trail[k]);
    undo(values, truth, trail, k + 1, n);
    put(values, truth, i, 0);
    trail[k] = entry(i, 2);
    let was = saved[k] as usize;
    let unmet = assign(formula, values, truth, i, 2, was);
    Some(Second { top: k + 1, unmet })
}
