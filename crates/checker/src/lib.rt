// The whole check over lent buffers: the order of the refusals, and what each answer leaves.
#![tactic(auto)]

mod numbers;
pub mod numeric;

ghost use Rattle.std.specs.Prelude.{◌≡◌, ◌<◌, true, Ok};
ghost use Rattle.book.specs.Held.{nodes_in};
ghost use Rattle.encoding.specs.Build.{built};
ghost use Rattle.checker.specs.Checked as def;
ghost use Rattle.checker.specs.Checked.{leaving, finished, told, ended_by};
ghost use Rattle.checker.specs.Lending.{held, owned, own, SameLoans};
ghost use Rattle.checker.specs.Meant.{Promised};
ghost use Rattle.checker.specs.Steps.{Searchable, Decided};

use book::{Book, NoAnswer};
use branching::Outcome;
use encoding::Build;
pub use numbers::{count, number, place, totals};
use records::{State, UNUSED};
use structure::Structure;

// The numbers of working space that a check is lent: the search's for as many variables and clauses as a build may have.
pub const WORK: usize = 2 * Build::VARIABLES + 1 + 3 * Build::CLAUSES;

// The program's budget of search nodes.
pub const BUDGET: u32 = 1000000;

// The most bytes that the program reads: one more than the longest book has.
pub const MOST_BYTES: usize = 8193;

// The buffers that a check is lent: state records, variable words, clause numbers, values and working space. Neither copied nor compared.
#[derive(Drop)]
pub struct Lent<'a> {
    pub states: &'a mut [State],
    pub words: &'a mut [u32],
    pub clauses: &'a mut [i16],
    pub values: &'a mut [u8],
    pub work: &'a mut [u16],
}

impl<'a> Lent<'a> {
    // The structure that lies in the buffers of a build with these totals.
    pub fn structure(&self, totals: Build) -> Structure<'_>
        ensures records { (result.states.now ≡ self.now.states.now) × (result.states_count ≡ totals.states) }
        ensures variables { (result.words.now ≡ self.now.words.now) × (result.variables_count ≡ totals.variables) × (result.values.now ≡ self.now.values.now) }
    {
        Structure {
            states: &*self.states,
            states_count: totals.states,
            words: &*self.words,
            variables_count: totals.variables,
            values: &*self.values,
        }
    }
}

// The buffers of a check, of their sizes, for a caller that is lent none. Making and lending are always inlined, so that the arrays lie on the stack once.
#[derive(Drop)]
pub struct Buffers {
    states: [State; Build::STATES],
    words: [u32; Build::VARIABLES],
    clauses: [i16; 3 * Build::CLAUSES],
    values: [u8; Build::VARIABLES],
    work: [u16; WORK],
}

impl Buffers {
    // All 0.
    #[inline(always)]
    pub fn new() -> Buffers
        ensures { owned result ≡ own }
    {
        Buffers {
            states: [UNUSED; Build::STATES],
            words: [0; Build::VARIABLES],
            clauses: [0; 3 * Build::CLAUSES],
            values: [0; Build::VARIABLES],
            work: [0; WORK],
        }
    }

    // The buffers, to be lent to a check. Each array is borrowed by itself, as the borrow checker takes no slice of a field behind a reference.
    #[inline(always)]
    pub fn lend(&mut self) -> Lent<'_>
        ensures { held result ≡ owned self.old }
    {
        let states = &mut self.states;
        let words = &mut self.words;
        let clauses = &mut self.clauses;
        let values = &mut self.values;
        let work = &mut self.work;
        Lent {
            states: &mut states[..],
            words: &mut words[..],
            clauses: &mut clauses[..],
            values: &mut values[..],
            work: &mut work[..],
        }
    }
}

// The answer to a book whose build is within the limits: the totals of the build, and what came of its search.
#[derive(Clone, Copy, PartialEq, Eq, Debug)]
pub struct Answer {
    pub totals: Build,
    pub outcome: Outcome,
}

// The answer to the book in these bytes within a budget of search nodes.
#[tactic(auto, using(crate::proofs::Promising::promised_short, crate::proofs::Promising::promised_refused, crate::proofs::Promising::promised_accepted))]
pub fn check(bytes: &[u8], budget: u32, buffers: &mut Lent) -> Result<Answer, NoAnswer>
    ensures promised { Promised bytes.now budget (held buffers.old) (held buffers.new) result }
    ensures same { SameLoans buffers.old buffers.new }
{
    if !enough(buffers) {
        return Err(NoAnswer::Lent);
    }
    let header = book::read(bytes)?;
    judge(&Book::accepted(bytes, header), header.root, budget, buffers)
}

// Whether every lent buffer is at least as long as its size.
#[tactic(auto, using(crate::proofs::Promising::enough_held))]
fn enough(buffers: &Lent) -> bool
    ensures { result ≡ def.enough (held buffers.now) }
{
    Build::STATES <= buffers.states.len()
        && Build::VARIABLES <= buffers.words.len()
        && 3 * Build::CLAUSES <= buffers.clauses.len()
        && Build::VARIABLES <= buffers.values.len()
        && WORK <= buffers.work.len()
}

// The build of an accepted book, and its search.
fn judge(book: &Book, root: usize, budget: u32, buffers: &mut Lent) -> Result<Answer, NoAnswer>
    requires root { root < book.now.nodes }
    requires enough { def.enough (held buffers.old) ≡ true }
    ensures judged { leaving (told result) (held buffers.new) ≡ finished budget (built (nodes_in book.now) root) (held buffers.old) }
    ensures same { SameLoans buffers.old buffers.new }
{
    let clauses = &mut *buffers.clauses;
    let values = &mut *buffers.values;
    let work = &mut *buffers.work;
    ground::clear(values, 0, Build::VARIABLES);
    ground::clear(work, 0, WORK);
    let totals = build::fill(book, root, buffers.states, buffers.words, clauses)?;
    Ok(search(totals, budget, clauses, values, work))
}

// The search of a build within the limits.
fn search(
    totals: Build,
    budget: u32,
    clauses: &[i16],
    values: &mut [u8],
    work: &mut [u16],
) -> Answer
    requires { Searchable totals clauses.now values.old work.old }
    ensures { Decided totals budget clauses.now values.old work.old values.new work.new result }
{
    let many = totals.clauses;
    let variables = totals.variables;
    let end = 3 * many;
    let space = 2 * variables + 1 + end;
    let outcome = branching::search(
        &clauses[..end],
        many,
        &mut values[..variables],
        &mut work[..space],
        budget,
    );
    answered(totals, outcome)
}

// What came of a search, as it is handed on with the totals of its build.
fn answered(totals: Build, outcome: Outcome) -> Answer
    ensures { told (Ok result) ≡ ended_by totals outcome }
{
    Answer { totals, outcome }
}
