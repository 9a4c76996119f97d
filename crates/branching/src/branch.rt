// Branching: a node propagates, then ends in yes, goes back, or branches on the lowest unassigned variable; and the loop over the nodes.
ghost use Rattle.std.specs.Prelude.{◌≡◌, ◌≤◌, ◌<◌, length};
ghost use Rattle.clauses.specs.Clause.{triples};
ghost use Rattle.search.specs.Search as def;
ghost use Rattle.propagation.specs.Trail.{pending, AllSaved, Branched};
ghost use Rattle.propagation.specs.Propagation.{Started};
ghost use Rattle.propagation.specs.Assigned.{Keeps};
ghost use Rattle.branching.specs.Nodes as nodes;
ghost use Rattle.branching.specs.Nodes.{Stepped, node_of, Ran};

use crate::Outcome;
use propagation::{Assignment, Conflict, FIRST, entry, noted};

// What a run of the nodes ends in.
#[derive(Clone, Copy, PartialEq, Eq, Debug)]
pub enum Verdict {
    Yes,
    No,
}

// The place of the lowest unassigned variable, where none is unassigned below `from`; the number of variables, if there is none, as the definition has it. One
// pass over the variables from there on at most.
#[tactic(auto, using(search::proofs::Marks::lowest_le, crate::proofs::Lowest::lowest_from, crate::proofs::Lowest::lowest_here, crate::proofs::Lowest::lowest_more, crate::proofs::Lowest::lowest_past))]
fn lowest(node: &Assignment, from: usize) -> usize
    requires { from ≤ def.lowest node.now.values.now }
    ensures { result ≡ def.lowest node.now.values.now }
{
    for i in from..node.values.len() {
        if node.values[i] == 0 {
            return i;
        }
    }
    node.values.len()
}

// The place above the branch that the last entry of the trail notes, below which no variable is unassigned; 0 at the root.
fn above(node: &Assignment) -> usize
    ensures { result ≡ nodes.above node.now.trail.now node.now.top }
{
    if node.top == 0 {
        return 0;
    }
    noted(node.trail[node.top - 1]) + 1
}

// Makes the first branch on the lowest unassigned variable: it is true, its second is pending, and the number of unmet clauses is saved for that.
fn branch(node: &mut Assignment, saved: &mut [u16], from: usize)
    requires { (0 < def.zeros node.old.values.now) × (node.old.top < length saved.old) × (from ≤ def.lowest node.old.values.now) }
    ensures branched { Branched node.old.formula.clauses.now node.old.top node.old.values.now node.old.trail.now saved.old node.new.values.now node.new.trail.now saved.new node.new.top node.new.unmet }
    ensures keeps { Keeps node.old node.new }
{
    let i = lowest(node, from);
    saved[node.top] = node.unmet as u16;
    node.assign(i, 1, entry(i, 1) + FIRST);
}

// Enters one node, and makes the branch that is entered next, if there is one.
fn next(node: &mut Assignment, saved: &mut [u16]) -> Option<Verdict>
    requires { (length saved.old ≡ length node.old.trail.now) × Started node.old.formula.clauses.now node.old.values.now node.old.trail.now node.old.top × AllSaved node.old.formula.clauses.now saved.old (pending node.old.values.now node.old.trail.now node.old.top) }
    ensures stepped { Stepped node.old.formula.clauses.now node.old.top node.old.values.now node.old.trail.now node.new.values.now node.new.trail.now saved.new node.new.top node.new.unmet result }
    ensures keeps { Keeps node.old node.new }
{
    let from = above(node);
    match node.settle() {
        Ok(()) => {
            let all_met = node.unmet == 0;
            if all_met {
                return Some(Verdict::Yes);
            }
            branch(node, saved, from);
            None
        }
        Err(Conflict) => if node.back(saved) {
            None
        } else {
            Some(Verdict::No)
        }
    }
}

// Enters nodes until a verdict, or until the budget is used up. A turn is a node: it costs one propagation, and then either a look at the variables from the
// last branch on, or going back.
pub fn walk(node: &mut Assignment, saved: &mut [u16], budget: u32) -> Outcome
    requires { (node.old.top ≡ 0) × (length saved.old ≡ length node.old.trail.now) }
    ensures ran { Ran (node_of (triples node.old.formula.clauses.now) node.old.values.now) budget node.new.values.now result }
    ensures keeps { Keeps node.old node.new }
{
    for count in 0..budget {
        match next(node, saved) {
            Some(Verdict::Yes) => {
                return Outcome::Yes(count + 1);
            }
            Some(Verdict::No) => {
                return Outcome::No(count + 1);
            }
            None => {}
        }
    }
    Outcome::Stopped(budget)
}
