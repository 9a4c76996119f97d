// A book's nodes in index order, each a row of the working space over the states: a node is evaluated once, however often it is shared.
// What is read, a structure, and what is written, the working space, stay two: a struct of both would be no plainer.
ghost use Rattle.std.specs.Prelude.{◌≡◌, ◌+◌, ◌<◌, length};
ghost use Rattle.ground.specs.Buffer.{cleared};
ghost use Rattle.logic.specs.Finite as logic;
ghost use Rattle.book.specs.Held.{nodes_of, nodes_in};
ghost use Rattle.structure.specs.Evaluation.{work_size};
ghost use Rattle.structure.specs.Held.{lies_in};
ghost use Rattle.evaluation.specs.Nodes.{Room, Evaluating, Prepared};

use crate::WORK;
use crate::rows::{Modal, begin, connect, is_diamond, node_row, spread};
use book::{Book, Node, Table};
use encoding::Build;
use ground::clear;
use structure::{ATOMS, Structure, marked};

// Writes the row of node i, those below it written. At most two passes over the states.
fn write_node(table: &Table, structure: &Structure, work: &mut [u8], i: usize)
    requires room { Room structure.now work.old }
    requires inside { i < length (nodes_of table.now) }
    ensures { Evaluating (nodes_of table.now) structure.now i (i + 1) work.old work.new }
{
    let n = structure.states_count;
    let base = node_row(i);
    let node = table.node(i);
    match node {
        Node::Box(relation, child) | Node::Diamond(relation, child) => {
            let diamond = is_diamond(node);
            let modal = Modal {
                diamond,
                relation,
                child: node_row(child),
            };
            begin(work, base, n, !diamond);
            spread(structure, work, modal, base);
        }
        _ => connect(work, node, i, n),
    }
}

// Writes the rows of all nodes. A node costs at most two passes over the states, so all cost at most 2 × nodes × states.
fn write_nodes(book: &Book, structure: &Structure, work: &mut [u8])
    requires room { Room structure.now work.old }
    ensures { Evaluating (nodes_in book.now) structure.now 0 book.now.nodes work.old work.new }
{
    for i in 0..book.nodes {
        write_node(&book.table, structure, work, i);
    }
}

// Writes the rows of the lives and of the atoms: clears them, then one pass over the records and one over the words.
#[tactic(auto, using(crate::proofs::Preparing::prepared))]
fn prepare(structure: &Structure, work: &mut [u8])
    requires room { Room structure.now work.old }
    ensures { Prepared structure.now work.old work.new }
{
    clear(work, 0, (1 + ATOMS) * Build::STATES);
    structure.write_lives(work);
    structure.write_table(work);
}

// Whether the root of an accepted book is true at state 1. The working space is cleared at the end, one pass over it.
pub fn root_holds(book: &Book, root: usize, structure: &Structure, work: &mut [u8]) -> bool
    requires room { Room structure.now work.old }
    requires root { root < book.now.nodes }
    ensures { (result ≡ logic.evaluate (lies_in structure.now) (nodes_in book.now) root 1) × (work.new ≡ cleared 0 work_size work.old) }
{
    prepare(structure, work);
    write_nodes(book, structure, work);
    let holds = marked(work, node_row(root));
    clear(work, 0, WORK);
    holds
}
