// The assignment of a node: the marks, the table of truths that shows them, the trail that notes them in order, and how many clauses are unmet. Lent lists, so
// neither copied nor compared; that they are still the same after a call is `Keeps`.
ghost use Rattle.std.specs.Prelude.{◌≡◌, ◌+◌, ◌≤◌, ◌<◌, length, get_or, set};
ghost use Rattle.search.specs.Search.{zeros};
ghost use Rattle.propagation.specs.Judging.{Mirrors};
ghost use Rattle.propagation.specs.Unmet.{Counts};
ghost use Rattle.propagation.specs.Trail.{pending, AllSaved, Entered};

use crate::formula::Formula;
use crate::marks::{assign, back};

#[derive(Drop)]
pub struct Assignment<'a> {
    pub formula: Formula<'a>,
    pub values: &'a mut [u8],
    pub truth: &'a mut [u8],
    pub trail: &'a mut [u16],
    pub top: usize,
    pub unmet: usize,
    ghost over: { length values.now ≡ formula.variables },
    ghost mirrors: { Mirrors values.now truth.now },
    ghost room: { top + zeros values.now ≤ length trail.now },
    ghost counts: { Counts formula.clauses.now values.now unmet },
}

impl<'a> Assignment<'a> {
    ghost use Rattle.propagation.specs.Assigned.{Keeps};

    // Gives the unassigned variable at i the mark m, 1 or 2, and notes that by the entry e.
    pub fn assign(&mut self, i: usize, m: u8, e: u16)
        requires { (i < length self.old.values.now) × (get_or self.old.values.now i 0 ≡ 0) × (0 < m) × (m < 3) }
        ensures marks { self.new.values.now ≡ set self.old.values.now i m }
        ensures notes { self.new.trail.now ≡ set self.old.trail.now self.old.top e }
        ensures top { self.new.top ≡ self.old.top + 1 }
        ensures keeps { Keeps self.old self.new }
    {
        self.trail[self.top] = e;
        self.unmet = assign(self.formula, self.values, self.truth, i, m, self.unmet);
        self.top += 1;
    }

    // Goes back to the latest first branch and makes its second; false, if there is none.
    pub fn back(&mut self, saved: &[u16]) -> bool
        requires { (self.old.top ≤ length saved.now) × AllSaved self.old.formula.clauses.now saved.now (pending self.old.values.now self.old.trail.now self.old.top) }
        ensures entered { Entered self.old.formula.clauses.now self.old.top self.old.values.now self.old.trail.now self.new.values.now self.new.trail.now self.new.top self.new.unmet result }
        ensures keeps { Keeps self.old self.new }
    {
        let Some(second) = back(
            self.formula,
            self.values,
            self.truth,
            self.trail,
            saved,
            self.top,
        ) else {
            return false;
        };
        self.top = second.top;
        self.unmet = second.unmet;
        true
    }
}
