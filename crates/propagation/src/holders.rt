// The clauses that hold a literal, found on the way down its links. A link is a place, 0 at the end: fixed memory, an Option of it takes twice the room.
ghost use Rattle.std.specs.Prelude.{◌≡◌, ◌≤◌, ◌*◌, length, get_or};

use crate::formula::Formula;

// The numbers of these clauses, counting from 0, from the latest down, none twice. The place is the next one among the clause numbers, 0 at the end.
#[derive(Drop)]
pub struct Holders<'a> {
    pub formula: Formula<'a>,
    pub place: usize,
    ghost inside: { place ≤ length formula.clauses.now },
}

impl<'a> Iterator for Holders<'a> {
    ghost use Rattle.std.specs.Iterator.{at_most};
    ghost use Rattle.propagation.specs.Way.{StepsDown};

    type Item = usize;

    ghost next_gives = { StepsDown };

    ghost remaining = { λ s. at_most s.place };

    fn next(&mut self) -> Option<usize> {
        if self.place == 0 {
            return None;
        }
        let i = (self.place - 1) / 3;
        self.place = usize::from(self.formula.links[2 * self.formula.variables + self.place]);
        Some(i)
    }
}

impl<'a> Formula<'a> {
    // The clauses of the literal whose latest place stands at x.
    pub fn holders(self, x: usize) -> Holders<'a>
        requires { x ≤ 2 * self.variables }
        ensures { (result.formula ≡ self.entry) × (result.place ≡ get_or self.entry.links.now x 0) }
    {
        Holders {
            formula: self,
            place: usize::from(self.links[x]),
        }
    }
}
