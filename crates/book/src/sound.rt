// A book past `read`: what the crates above read its nodes from.
ghost use Rattle.std.specs.Prelude.{◌≡◌, ◌<◌, length};
ghost use Rattle.book.specs.Rulebook.{table_of};
ghost use Rattle.book.specs.Told.{Sound};
ghost use Rattle.book.specs.Props.{sound_prop};

use crate::{Header, Node, record_at};

// The node records of an accepted book: its bytes, and where the records begin.
#[derive(Clone, Copy, PartialEq, Eq, Debug)]
pub struct Table<'a> {
    pub bytes: &'a [u8],
    pub offset: usize,
    ghost sound: { Sound bytes.now offset } by { sound_prop bytes.now offset },
}

impl<'a> Table<'a> {
    ghost use Rattle.logic.specs.Table.{node};
    ghost use Rattle.book.specs.Held.{nodes_of};
    ghost use Rattle.book.specs.Shapes.{shape_of, Bounded};

    // Node i.
    #[tactic(auto, using(crate::proofs::Records::node_read, crate::proofs::Records::node_bounded))]
    pub fn node(&self, i: usize) -> Node
        requires { i < length (nodes_of self.now) }
        ensures is { shape_of result ≡ node (nodes_of self.now) i }
        ensures bounds { Bounded i result }
    {
        record_at(self.bytes, self.offset, i).node()
    }
}

// An accepted book: its node records, and how many there are.
#[derive(Clone, Copy, PartialEq, Eq, Debug)]
pub struct Book<'a> {
    pub table: Table<'a>,
    pub nodes: usize,
    ghost whole: { nodes ≡ length (table_of table.bytes.now) },
}

impl<'a> Book<'a> {
    ghost use Rattle.std.specs.Prelude.{Ok};
    ghost use Rattle.book.specs.Rulebook.{book};
    ghost use Rattle.book.specs.Told.{told};

    // The book in these bytes, for which `read` gave this header.
    #[tactic(auto, using(crate::proofs::Accepted::read_sound, crate::proofs::Accepted::read_whole, crate::proofs::Accepted::read_rooted))]
    pub fn accepted(bytes: &'a [u8], header: Header) -> Book<'a>
        requires read { told bytes.now (Ok header) ≡ book bytes.now }
        ensures bytes { result.table.bytes.now ≡ bytes.now }
        ensures nodes { (result.table.offset ≡ header.offset) × (result.nodes ≡ header.nodes) }
        ensures root { header.root < result.nodes }
    {
        Book {
            table: Table {
                bytes,
                offset: header.offset,
            },
            nodes: header.nodes,
        }
    }
}
