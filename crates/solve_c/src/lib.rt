// The search by itself for callers written in C, from the library `solve`.
#![tactic(auto)]

ghost use Rattle.solve.specs.Solved.{Solved};

// Document 01's number: 1 yes, 2 no, 3 stopped; or 10, with nothing touched, where the clauses or the buffers do not fit. There are as many
// variables as values.
#[unsafe(no_mangle)]
pub extern "C" fn rulebook_search(
    clauses: &[i16],
    values: &mut [u8],
    work: &mut [u16],
    budget: u32,
) -> u32
    ensures { Solved clauses.now values.old work.old budget values.new work.new result }
{
    solve::rulebook_search(clauses, values, work, budget)
}
