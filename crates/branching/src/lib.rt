// Document 01, "The search", over lent buffers: the clauses, a value for each variable, and working space. It is one loop over the nodes,
// so its stack does not grow with the depth of the tree.
#![tactic(auto)]

mod branch;

ghost use Rattle.std.specs.Prelude.{◌≡◌, map, ◌%◌, ◌≤◌, length, replicate};
ghost use Rattle.propagation.specs.Ready.{Ready, space_for};
ghost use Rattle.branching.specs.Answered.{Answered, number_of};
ghost use Rattle.clauses.specs.Clause.{triples};
ghost use Rattle.branching.specs.Nodes.{left_by, node_of, Ran};

use branch::walk;
use propagation::{Assignment, Formula, link};

// The answer, with its count: the nodes entered up to the verdict, or the budget. The count stands in each case, as the definitions have it.
#[derive(Clone, Copy, PartialEq, Eq, Debug)]
pub enum Outcome {
    Yes(u32),
    No(u32),
    Stopped(u32),
}

// Document 01's number: 1 yes, 2 no, 3 stopped.
impl From<Outcome> for u32 {
    ghost from_gives = { λ o n. n ≡ number_of o };

    fn from(outcome: Outcome) -> u32 {
        match outcome {
            Outcome::Yes(_) => 1,
            Outcome::No(_) => 2,
            Outcome::Stopped(_) => 3,
        }
    }
}

// Searches `many` clauses within `budget` nodes; as many as the numbers have threes, but the caller knows it without a division. What the values and the
// working space hold at entry does not matter; the working space, in which the clauses of each literal are linked, is zero afterwards. Besides the nodes it
// costs two passes over the values, two over the working space and one over the clause numbers; and on the stack the table of truths, 8,192 bytes, in which at
// first every literal is unassigned and the unused place false, and the trail with the number of unmet clauses at each first branch, 8,190 bytes each.
pub fn search(
    clauses: &[i16],
    many: usize,
    values: &mut [u8],
    work: &mut [u16],
    budget: u32,
) -> Outcome
    requires { Ready clauses.now many (length values.old) × (space_for (length values.old) many ≤ length work.old) }
    ensures { Answered clauses.now values.old work.old budget values.new work.new result }
{
    let variables = values.len();
    values.fill(0);
    link(clauses, variables, work);
    let formula = Formula {
        clauses,
        many,
        variables,
        links: work,
    };
    let outcome = run(formula, values, budget);
    work.fill(0);
    leave(outcome, values);
    outcome
}

// Enters nodes from the root on, where nothing is assigned.
fn run(formula: Formula, values: &mut [u8], budget: u32) -> Outcome
    requires { values.old ≡ replicate formula.variables 0 }
    ensures { Ran (node_of (triples formula.entry.clauses.now) values.old) budget values.new result }
{
    let mut truth = [1u8; 8192];
    truth[4096] = 0;
    let mut trail = [0u16; 4095];
    let mut saved = [0u16; 4095];
    let mut node = Assignment {
        formula,
        values,
        truth: &mut truth,
        trail: &mut trail,
        top: 0,
        unmet: formula.many,
    };
    walk(&mut node, &mut saved, budget)
}

// What an outcome leaves in the values: those of a yes, or none. A no and a stop stand apart, as each has a wrong program that is refused.
fn leave(outcome: Outcome, values: &mut [u8])
    ensures { values.new ≡ left_by outcome values.old }
{
    match outcome {
        Outcome::Yes(_) => finish(values),
        Outcome::No(_) => values.fill(0),
        Outcome::Stopped(_) => values.fill(0),
    }
}

// The values of a yes: 1 for true, 0 for false and for unassigned. One pass over the variables.
fn finish(values: &mut [u8])
    ensures { values.new ≡ map (λ x. x % 2) values.old }
{
    for x in values.iter_mut() {
        *x %= 2;
    }
}
