// The calls over the numbers of the records, three to a record, in a table of any length: for callers that have the numbers alone. Numbers behind the last
// whole record are none.
ghost use Rattle.std.specs.Prelude.{◌≡◌, suc, ◌+◌, ◌*◌, ◌≤◌, length, get_or, take};
ghost use Rattle.signed.specs.Signed as signed;
ghost use Rattle.structure.specs.Structure.{lives};
ghost use Rattle.structure.specs.Evaluation as def;
ghost use Rattle.structure.specs.Evaluation.{records_in};
ghost use Rattle.structure.specs.Marks.{Marked, lives_fit, lives_marked, edge_of, record_of};
ghost use Rattle.structure.specs.Rows.{Written, next_life};

use super::Edge;
use crate::fits::variables_fit;
use crate::marks::{bit, value};
use encoding::Build;
use ground::clear;

// The number at place i; 0 beyond the end.
pub fn number(states: &[u16], i: usize) -> usize
    ensures { result ≡ get_or states.now i 0 }
{
    if i < states.len() {
        usize::from(states[i])
    } else {
        0
    }
}

// Whether the numbers have their size, and n is a number of states that a build can have.
#[tactic(auto, unfolding(crate::specs::Evaluation::states_fit))]
pub fn states_fit(states: &[u16], n: usize) -> bool
    ensures { result ≡ def.states_fit n states.now }
{
    1 <= n && n <= Build::STATES && 3 * Build::STATES <= states.len()
}

// The edge that ends in state s, of n, if it lives: its record's parent and relation; 0 and 0 where the table or the build has no such state.
#[tactic(auto, using(crate::proofs::Recorded::edge_of_numbers, crate::proofs::Recorded::edge_of_no_numbers))]
pub fn edge_to(states: &[u16], n: usize, s: usize) -> Edge
    ensures { result ≡ edge_of (record_of n states.now s) }
{
    if s == 0 || n < s || states.len() / 3 < s {
        return Edge {
            parent: 0,
            relation: 0,
        };
    }
    let at = 3 * (s - 1);
    Edge {
        parent: number(states, at),
        relation: number(states, at + 1),
    }
}

// Whether the state at place j lives, where the marks before j tell of the states before it.
#[tactic(auto, using(crate::proofs::Living::later_life), unfolding(crate::specs::Rows::next_life))]
fn lives_next(states: &[u16], values: &[u8], v: usize, marks: &[u8], j: usize) -> bool
    requires { 3 * j + 3 ≤ length states.now }
    ensures { result ≡ next_life states.now v values.now marks.now j }
{
    if j == 0 {
        return true;
    }
    let at = 3 * j;
    value(values, v, number(states, at + 2)) && value(marks, j, number(states, at))
}

// Marks which of the n states live, in number order, so that a parent's life is there before it is asked for. One pass over the records.
pub fn write_lives(states: &[u16], n: usize, values: &[u8], v: usize, marks: &mut [u8])
    requires { (3 * n ≤ length states.now) × (n ≤ length marks.old) }
    ensures { Written 0 n (λ j. signed.bit (lives (records_in n states.now) (take v values.now) (suc j))) marks.old marks.new }
{
    for j in 0..n {
        marks[j] = bit(lives_next(states, values, v, marks, j));
    }
}

// Marks which of the n states live, a byte a state; false, as `Marked` has it, and nothing touched if a buffer is too short. One pass over the records.
#[tactic(auto, using(crate::proofs::Preparing::nothing_marked, crate::proofs::Preparing::lives_told, crate::proofs::Sizes::living_in))]
pub fn mark_living(states: &[u16], n: usize, values: &[u8], v: usize, marks: &mut [u8]) -> bool
    ensures { Marked (lives_fit n states.now v values.now marks.old) (lives_marked n states.now v values.now marks.old) marks.old result marks.new }
{
    if !all_fit(states, n, values, v, marks) {
        return false;
    }
    clear(marks, 0, Build::STATES);
    write_lives(states, n, values, v, marks);
    true
}

// Whether the numbers, the values and the room for marks have their sizes.
#[tactic(auto, unfolding(crate::specs::Marks::lives_fit))]
fn all_fit(states: &[u16], n: usize, values: &[u8], v: usize, marks: &[u8]) -> bool
    ensures { result ≡ lives_fit n states.now v values.now marks.now }
{
    states_fit(states, n) && variables_fit(v, values) && Build::STATES <= marks.len()
}
