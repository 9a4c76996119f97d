// Clauses over a number of variables, with the places of each literal linked.
ghost use Rattle.std.specs.Prelude.{length};
ghost use Rattle.propagation.specs.Ready.{Ready};
ghost use Rattle.propagation.specs.Links.{Linked};

#[derive(Clone, Copy, PartialEq, Eq, Debug)]
pub struct Formula<'a> {
    pub clauses: &'a [i16],
    pub many: usize,
    pub variables: usize,
    pub links: &'a [u16],
    ghost ready: { Ready clauses.now many variables },
    ghost linked: { Linked clauses.now variables (length clauses.now) links.now },
}
