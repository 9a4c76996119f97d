// Propagation: forced literals are made true until no clause says anything, or one fails. At the root every clause is heeded once; after that only clauses
// in which a literal has just become false. The trail is the queue of these: its entries from a head up to the top are still to be visited.
ghost use Rattle.std.specs.Prelude.{◌≡◌, ◌+◌, ◌/◌, ◌≤◌, ◌<◌, length, set, nat_abs, is_ok};
ghost use Rattle.search.specs.Search as def;
ghost use Rattle.propagation.specs.Judging.{clause_at, Tells};
ghost use Rattle.propagation.specs.Trail.{entry_for, Marked};
ghost use Rattle.propagation.specs.Propagation.{Every, Holding, Queue, Followed, Started, Settling};
ghost use Rattle.propagation.specs.Assigned.{Keeps, Heeds};

use crate::assignment::Assignment;
use crate::clause::{Told, clause_at, literal_at, mark, place, says};
use crate::trail::{FIRST, entry};

// A clause has no literal left that is true or could become so.
#[derive(Clone, Copy, PartialEq, Eq, Debug)]
pub struct Conflict;

impl<'a> Assignment<'a> {
    // Makes an unassigned literal true.
    fn make_true(&mut self, l: i16)
        requires { (nat_abs l ≤ length self.old.values.now) × (def.value self.old.values.now l ≡ 0) }
        ensures marks { self.new.values.now ≡ def.make_true self.old.values.now l }
        ensures notes { self.new.trail.now ≡ set self.old.trail.now self.old.top (entry_for (def.place l) (def.mark l)) }
        ensures top { self.new.top ≡ self.old.top + 1 }
        ensures keeps { Keeps self.old self.new }
    {
        let i = place(l);
        let m = mark(l);
        self.assign(i, m, entry(i, m));
    }

    // What the i-th clause, c, says.
    fn told(&self, i: usize, c: [i16; 3]) -> Told
        requires { (i < self.now.formula.many) × (c ≡ clause_at self.now.formula.clauses.now i) }
        ensures { Tells (clause_at self.now.formula.clauses.now i) result (def.says self.now.values.now (clause_at self.now.formula.clauses.now i)) }
    {
        says(c, self.truth)
    }

    // Does what the i-th clause says: a literal that it forces is made true.
    fn heed(&mut self, i: usize) -> Result<(), Conflict>
        requires { i < self.old.formula.many }
        ensures heard { Heeds (λ c. c ≡ clause_at self.old.formula.clauses.now i) self.old self.new (is_ok result) }
        ensures keeps { Keeps self.old self.new }
    {
        let c = clause_at(self.formula.clauses, i);
        match self.told(i, c) {
            Told::Quiet => Ok(()),
            Told::Fails => Err(Conflict),
            Told::Forces(k) => {
                self.make_true(literal_at(c, k));
                Ok(())
            }
        }
    }

    // Heeds every clause once. One pass over the clauses at most.
    fn sweep(&mut self) -> Result<(), Conflict>
        requires { self.old.top ≡ 0 }
        ensures heard { Heeds (Every self.old.formula.clauses.now) self.old self.new (is_ok result) }
        ensures keeps { Keeps self.old self.new }
    {
        for i in 0..self.formula.many {
            self.heed(i)?;
        }
        Ok(())
    }

    // Heeds the clauses of the literal that became false with an entry of the trail, from the latest down. It costs no more than these clauses.
    fn visit(&mut self, e: usize) -> Result<(), Conflict>
        requires { Marked self.old.values.now e }
        ensures heard { Heeds (Holding self.old.formula.clauses.now (e / 2)) self.old self.new (is_ok result) }
        ensures keeps { Keeps self.old self.new }
    {
        for i in self.formula.holders(e + 1) {
            self.heed(i)?;
        }
        Ok(())
    }

    // Visits the entries of the trail from the head up to the top, and those that are noted meanwhile. Each turn visits an entry, so it costs no more than the
    // clauses that hold a variable assigned since the head. A `while` with a head, as the queue grows while it is visited. Inlined: as a
    // function of its own it keeps the assignment in memory, which took 1.05 of the time.
    #[inline(always)]
    fn follow(&mut self, from: usize) -> Result<(), Conflict>
        requires { (from ≤ self.old.top) × Queue self.old.formula.clauses.now self.old.values.now self.old.trail.now from self.old.top }
        ensures followed { Followed self.old.formula.clauses.now self.old.top self.old.values.now self.old.trail.now self.new.top self.new.values.now self.new.trail.now (is_ok result) }
        ensures keeps { Keeps self.old self.new }
    {
        let mut head = from;
        while head < self.top {
            let e = self.trail[head] % FIRST;
            self.visit(e as usize)?;
            head += 1;
        }
        Ok(())
    }

    // Propagates a node: the root, or one whose branch is noted last.
    pub fn settle(&mut self) -> Result<(), Conflict>
        requires { Started self.old.formula.clauses.now self.old.values.now self.old.trail.now self.old.top }
        ensures settled { Settling self.old.formula.clauses.now self.old.top self.old.values.now self.old.trail.now self.new.values.now self.new.trail.now (is_ok result) self.new.top }
        ensures keeps { Keeps self.old self.new }
    {
        if self.top == 0 {
            self.sweep()?;
            return self.follow(0);
        }
        self.follow(self.top - 1)
    }
}
