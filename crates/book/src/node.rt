// A node of the table, as the code holds it: numbers for kinds end here.
ghost use Rattle.std.specs.Prelude.{◌≡◌};
ghost use Rattle.book.specs.Shapes.{node_by};

use crate::Record;

// By kind, with its atom, or its children; a box and a diamond have their relation first.
#[derive(Clone, Copy, PartialEq, Eq, Debug)]
pub enum Node {
    Atom(usize),
    Not(usize),
    And(usize, usize),
    Or(usize, usize),
    Implies(usize, usize),
    Box(usize, usize),
    Diamond(usize, usize),
}

impl Record {
    // The node that the record makes, where it keeps the rules: those are tested once, by `read`, with the header's numbers, which nobody needs who reads a node.
    pub(crate) fn node(self) -> Node
        ensures { result ≡ node_by self }
    {
        match self.kind {
            1 => Node::Atom(self.first),
            2 => Node::Not(self.first),
            3 => Node::And(self.first, self.second),
            4 => Node::Or(self.first, self.second),
            5 => Node::Implies(self.first, self.second),
            6 => Node::Box(self.relation, self.first),
            _ => Node::Diamond(self.relation, self.first),
        }
    }
}
