// A signed formula's key and the class of a key, read from an accepted book's nodes.
#![tactic(auto)]

ghost use Rattle.std.specs.Prelude.{◌≡◌, ◌<◌, length};
ghost use Rattle.book.specs.Held.{nodes_of, nodes_in};
ghost use Rattle.signed.specs.Signed.{Key, number, plus, signed, classed};
ghost use Rattle.signed.specs.Asking.{ask_of, class_of, Small, Tame, is_conjunctive, first_sign, is_existential, class_of_two, class_of_one};

use book::{Book, Node, Table};

// The key of the first atom.
pub const FIRST_ATOM: usize = 1024;

#[derive(Clone, Copy, PartialEq, Eq, Debug)]
pub struct Ask {
    pub minus: bool,
    pub key: usize,
}

#[derive(Clone, Copy, PartialEq, Eq, Debug)]
pub enum Class {
    Leaf,
    Conjunctive(Ask, Ask),
    Disjunctive(Ask, Ask),
    Existential(usize, Ask),
    Universal(usize, Ask),
}

// The signed formula with every "not" stripped. One step for each "not": a loop, as nobody knows beforehand how many stand there.
pub fn strip(table: &Table, node: usize, minus: bool) -> Ask
    requires { node < length (nodes_of table.now) }
    ensures { (result ≡ ask_of (signed (nodes_of table.now) node minus)) × (result.key < 2048) }
{
    let mut i = node;
    let mut sign = minus;
    'nots: loop {
        match table.node(i) {
            Node::Atom(atom) => {
                return Ask {
                    minus: sign,
                    key: FIRST_ATOM + atom,
                };
            }
            Node::Not(child) => {
                i = child;
                sign = !sign;
            }
            _ => {
                return Ask {
                    minus: false,
                    key: 2 * i + usize::from(sign),
                };
            }
        }
    }
}

// The class of the key with this number, and its parts; an atom is a leaf. One arm for two parts and one for one, and not an arm for each kind: with
// five arms the build of a chain took 1.13 of the time.
#[inline(always)]
pub fn classify(book: &Book, key: usize) -> Class
    requires { key < 2048 }
    ensures { Tame result × ((k : Key) → Small k → number k ≡ key → result ≡ class_of (classed (nodes_in book.now) (plus k))) }
{
    if key >= FIRST_ATOM {
        return Class::Leaf;
    }
    let i = key / 2;
    if i >= book.nodes {
        return Class::Leaf;
    }
    let minus = key % 2 == 1;
    let t = &book.table;
    let node = t.node(i);
    match node {
        Node::And(a, b) | Node::Or(a, b) | Node::Implies(a, b) => binary(
            is_conjunctive(node, minus),
            strip(t, a, first_sign(node, minus)),
            strip(t, b, minus),
        ),
        Node::Box(r, a) | Node::Diamond(r, a) => {
            modal(is_existential(node, minus), r, strip(t, a, minus))
        }
        Node::Atom(_) | Node::Not(_) => Class::Leaf,
    }
}

// Whether and, or, implies under a sign is conjunctive.
fn is_conjunctive(node: Node, minus: bool) -> bool
    ensures { result ≡ is_conjunctive node minus }
{
    match node {
        Node::And(..) => !minus,
        _ => minus,
    }
}

// The sign of the first part of and, or, implies; the second part's is the formula's own.
fn first_sign(node: Node, minus: bool) -> bool
    ensures { result ≡ first_sign node minus }
{
    match node {
        Node::Implies(..) => !minus,
        _ => minus,
    }
}

// Whether box, diamond under a sign is existential.
fn is_existential(node: Node, minus: bool) -> bool
    ensures { result ≡ is_existential node minus }
{
    match node {
        Node::Diamond(..) => !minus,
        _ => minus,
    }
}

// The class of and, or, implies by its parts.
#[tactic(auto, unfolding(crate::specs::Asking::Tame))]
fn binary(conjunctive: bool, first: Ask, second: Ask) -> Class
    requires { (first.key < 2048) × (second.key < 2048) }
    ensures { Tame result × (result ≡ class_of_two conjunctive first second) }
{
    if conjunctive {
        Class::Conjunctive(first, second)
    } else {
        Class::Disjunctive(first, second)
    }
}

// The class of box, diamond by its part.
#[tactic(auto, unfolding(crate::specs::Asking::Tame))]
fn modal(existential: bool, relation: usize, part: Ask) -> Class
    requires { (relation < 16) × (part.key < 2048) }
    ensures { Tame result × (result ≡ class_of_one existential relation part) }
{
    if existential {
        Class::Existential(relation, part)
    } else {
        Class::Universal(relation, part)
    }
}
