// The calls for hosts: the check's number alone, the check over lent buffers, and the evaluation. The crate host_c exports them to C.
#![tactic(auto)]

mod reading;
mod report;

ghost use Rattle.records.specs.Table.{numbers_of};
ghost use Rattle.checker.specs.Checked.{lent};
ghost use Rattle.host.specs.Called.{Numbered, Into, Judged};

use book::NoAnswer;
use checker::{Buffers, Lent};
use reading::{number, readable};
use records::State;
use report::{FIELDS, report};
use structure::Structure;

// The answer's number alone; every buffer is the call's own.
pub fn rulebook_check(book: &[u8], budget: u32) -> u32
    ensures { Numbered book.now budget result }
{
    let mut own = Buffers::new();
    let mut buffers = own.lend();
    checker::number(checker::check(book, budget, &mut buffers))
}

// The check over lent buffers, so that a host can show the structure; the answer's fields go into `answer`. With an array too short for them it is 10.
// The arrays stand each by itself, as C passes them.
pub fn rulebook_check_into(
    book: &[u8],
    budget: u32,
    states: &mut [State],
    words: &mut [u32],
    clauses: &mut [i16],
    values: &mut [u8],
    work: &mut [u16],
    answer: &mut [u32],
) -> u32
    ensures { Into book.now budget (lent (numbers_of states.old) words.old clauses.old values.old work.old) answer.old (lent (numbers_of states.new) words.new clauses.new values.new work.new) answer.new result }
{
    if answer.len() < FIELDS {
        return u32::from(NoAnswer::Lent);
    }
    let mut buffers = Lent {
        states,
        words,
        clauses,
        values,
        work,
    };
    let told = checker::check(book, budget, &mut buffers);
    report(answer, told);
    checker::number(told)
}

// Whether the book is true at state 1 of the structure that lies in the buffers: 1 or 2, or a refusal 10 to 14. The arrays stand
// each by itself, as C passes them.
pub fn rulebook_evaluate(
    book: &[u8],
    states: &[State],
    states_count: usize,
    words: &[u32],
    variables_count: usize,
    values: &[u8],
    work: &mut [u8],
) -> u32
    ensures { Judged book.now (numbers_of states.now) states_count words.now variables_count values.now work.old work.new result }
{
    let m = readable(states.len());
    let structure = Structure {
        states: &states[..m],
        states_count,
        words,
        variables_count,
        values,
    };
    number(evaluation::evaluate(book, &structure, work))
}
