// The search by itself, for measurements and for clauses from elsewhere: no book and no build, but clauses that the caller has made.
#![tactic(auto)]

ghost use Rattle.std.specs.Prelude.{◌≡◌, nat_abs, nat_le};
ghost use Rattle.std.specs.List.{list_all};
ghost use Rattle.solve.specs.Solved as def;
ghost use Rattle.solve.specs.Solved.{Solved};

// The search's own limits (`Ready`): what its table of truths has room for, and places that fit 16 bits.
const VARIABLES: usize = 4095;

const NUMBERS: usize = 65535;

// Document 01's number: 1 yes, 2 no, 3 stopped; or 10, with nothing touched, where the clauses or the buffers do not fit. There are as many
// variables as values.
pub fn rulebook_search(clauses: &[i16], values: &mut [u8], work: &mut [u16], budget: u32) -> u32
    ensures { Solved clauses.now values.old work.old budget values.new work.new result }
{
    if !fits(clauses, values.len(), work.len()) {
        // a number, as C takes it
        return 10;
    }
    let many = clauses.len() / 3;
    u32::from(branching::search(clauses, many, values, work, budget))
}

// Whether these are clauses over v variables that the search takes, with `room` places of working space.
#[tactic(auto, using(crate::proofs::Fitting::fits_both), unfolding(crate::specs::Solved::fits))]
fn fits(clauses: &[i16], v: usize, room: usize) -> bool
    ensures { result ≡ def.fits clauses.now v room }
{
    lengths_fit(clauses.len(), v, room) && within(clauses, v)
}

// The lengths alone.
#[tactic(auto, unfolding(crate::specs::Solved::lengths_fit))]
fn lengths_fit(numbers: usize, v: usize, room: usize) -> bool
    ensures { result ≡ def.lengths_fit numbers v room }
{
    v <= VARIABLES
        && numbers <= NUMBERS
        && numbers % 3 == 0
        && 2 * v + 1 + 3 * (numbers / 3) <= room
}

// Whether every number is of one of v variables, or 0. One pass.
fn within(clauses: &[i16], v: usize) -> bool
    ensures { result ≡ list_all (λ l. nat_le (nat_abs l) v) clauses.now }
{
    clauses.iter().all(|l| propagation::number(*l) <= v)
}
