// The clauses of each literal: its places among the clause numbers, linked from the latest down. In a clause that has a literal more than once only the first
// of its places is linked, so that no clause is met twice on the way.
ghost use Rattle.std.specs.Prelude.{◌≡◌, ◌+◌, ◌<◌, length};
ghost use Rattle.propagation.specs.Links as def;
ghost use Rattle.propagation.specs.Links.{Linkable, Linked};

use crate::clause::{mark, place};
use ground::clear;

// Where the latest place stands of the literal that the mark m makes true, of the variable at i.
pub fn head(i: usize, m: u8) -> usize
    requires { i < 32768 }
    ensures { result ≡ def.head_of (def.made i m) }
{
    if m == 1 { 2 * i + 2 } else { 2 * i + 1 }
}

// Where a literal's latest place stands, 0 for an unused place.
fn head_of(l: i16) -> usize
    ensures { result ≡ def.head_of l }
{
    if l == 0 { 0 } else { head(place(l), mark(l)) }
}

// Of the latest place and the next one with the same literal, the one that counts.
fn joined(last: u16, p: u16) -> u16
    ensures { result ≡ def.joined last p }
{
    let earlier = last as usize + 2;
    let later = p as usize + 2;
    if earlier / 3 == later / 3 { last } else { p }
}

// How a link says the i-th clause number: by its place. Places count from 1, as 0 is none.
fn link_to(i: usize) -> u16
    requires { i < 65535 }
    ensures { result ≡ i + 1 }
{
    (i + 1) as u16
}

// Links the places of each literal. One pass over the literals, and one over the clause numbers.
pub fn link(clauses: &[i16], variables: usize, links: &mut [u16])
    requires { Linkable clauses.now variables links.old }
    ensures { Linked clauses.now variables (length clauses.now) links.new }
{
    clear(links, 0, 2 * variables + 1);
    for (i, l) in clauses.iter().enumerate() {
        let x = head_of(*l);
        let last = links[x];
        links[2 * variables + 1 + i] = last;
        links[x] = joined(last, link_to(i));
    }
}
