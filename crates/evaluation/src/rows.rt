// The rows of the working space: where each begins, and how a node's row is made from those of its children.
ghost use Rattle.std.specs.Prelude.{◌≡◌, ◌+◌, ◌≤◌, ◌<◌, length};
ghost use Rattle.signed.specs.Signed as signed;
ghost use Rattle.book.specs.Shapes.{Bounded};
ghost use Rattle.encoding.specs.Limits.{max_states};
ghost use Rattle.structure.specs.Evaluation.{max_nodes, work_size};
ghost use Rattle.structure.specs.Held.{numbers};
ghost use Rattle.structure.specs.Marks.{on};
ghost use Rattle.structure.specs.Rows.{Written, Scattered};
ghost use Rattle.evaluation.specs.Nodes as def;
ghost use Rattle.evaluation.specs.Nodes.{node_row, first_row, second_row, reaches};

use book::Node;
use encoding::Build;
use structure::{ATOMS, Structure, bit, marked, put};

// A box or a diamond: which of them, its relation, and where the row of its child begins.
#[derive(Clone, Copy, PartialEq, Eq, Debug)]
pub struct Modal {
    pub diamond: bool,
    pub relation: usize,
    pub child: usize,
}

// Where the row of node i begins.
pub fn node_row(i: usize) -> usize
    requires { i < max_nodes }
    ensures { result ≡ node_row i }
{
    (1 + ATOMS + i) * Build::STATES
}

// Where the row begins that a node is made from: its atom's, or that of its child, the first if it has two.
fn first_row(node: Node) -> usize
    requires { Bounded max_nodes node }
    ensures { result ≡ first_row node }
{
    match node {
        Node::Atom(a) => (1 + a) * Build::STATES,
        Node::Not(c) => node_row(c),
        Node::And(c, _) | Node::Or(c, _) | Node::Implies(c, _) => node_row(c),
        Node::Box(_, c) | Node::Diamond(_, c) => node_row(c),
    }
}

// Where the row begins that it is made from besides: the second child's, if it has one.
fn second_row(node: Node) -> usize
    requires { Bounded max_nodes node }
    ensures { result ≡ second_row node }
{
    match node {
        Node::And(_, c) | Node::Or(_, c) | Node::Implies(_, c) => node_row(c),
        _ => first_row(node),
    }
}

// A state's mark from its own marks in those rows: an atom's is copied.
fn joined(node: Node, a: bool, b: bool) -> bool
    ensures { result ≡ def.joined node a b }
{
    match node {
        Node::Not(_) => !a,
        Node::And(..) => a && b,
        Node::Or(..) => a || b,
        Node::Implies(..) => !a || b,
        _ => a,
    }
}

// Writes the row of node i from the rows that it is made from, state by state. One pass over the n states.
pub fn connect(work: &mut [u8], node: Node, i: usize, n: usize)
    requires node { Bounded i node × (i < max_nodes) }
    requires room { (n ≤ max_states) × (work_size ≤ length work.old) }
    ensures { Written (node_row i) n (λ j. signed.bit (def.joined node (on work.old (first_row node + j)) (on work.old (second_row node + j)))) work.old work.new }
{
    let base = node_row(i);
    let first = first_row(node);
    let second = second_row(node);
    for j in 0..n {
        let a = marked(work, first + j);
        let b = marked(work, second + j);
        work[base + j] = bit(joined(node, a, b));
    }
}

// Whether a node is a diamond: of a box or a diamond, which of them.
pub fn is_diamond(node: Node) -> bool
    ensures { result ≡ def.is_diamond node }
{
    matches!(node, Node::Diamond(..))
}

// Writes the row at base with one mark for all n states: a box begins with all of them, a diamond with none.
pub fn begin(work: &mut [u8], base: usize, n: usize, mark: bool)
    requires { base + n ≤ length work.old }
    ensures { Written base n (λ j. signed.bit mark) work.old work.new }
{
    work[base..base + n].fill(bit(mark));
}

// For a diamond a marked child counts, for a box one that is not.
#[tactic(auto, unfolding(crate::specs::Nodes::turned))]
fn turned(diamond: bool, mark: bool) -> bool
    ensures { result ≡ def.turned diamond mark }
{
    if diamond { mark } else { !mark }
}

// Whether the state at place j lives, is a successor by the relation, and its child's mark counts.
#[tactic(auto, unfolding(crate::specs::Nodes::counts))]
fn counts(structure: &Structure, work: &[u8], modal: Modal, j: usize) -> bool
    requires { modal.child + j < length work.now }
    ensures { result ≡ def.counts (numbers structure.now) work.now modal.relation modal.child modal.diamond j }
{
    let same = usize::from(structure.record(j).relation) == modal.relation;
    marked(work, j) && same && turned(modal.diamond, marked(work, modal.child + j))
}

// Writes the diamond's or box's mark at the parent of each state that counts, in the row that begins at base. One pass over the states.
#[tactic(auto, using(crate::proofs::Showing::spread_next))]
pub fn spread(structure: &Structure, work: &mut [u8], modal: Modal, base: usize)
    requires before { (structure.now.states_count ≤ base) × (modal.child + structure.now.states_count ≤ base) }
    requires room { base + structure.now.states_count ≤ length work.old }
    ensures { Scattered (signed.bit modal.diamond) (reaches structure.now work.old modal base) structure.now.states_count work.old work.new }
{
    let x = bit(modal.diamond);
    for j in 0..structure.states_count {
        let mark = counts(structure, work, modal, j);
        let parent = usize::from(structure.record(j).parent);
        put(work, base, structure.states_count, mark, parent, x);
    }
}
