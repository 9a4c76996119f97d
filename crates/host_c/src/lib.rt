// The calls for hosts written in C, from the library `host`: include/rulebook.h has them, with their numbers by name.
#![tactic(auto)]

ghost use Rattle.records.specs.Table.{numbers_of};
ghost use Rattle.checker.specs.Checked.{lent};
ghost use Rattle.host.specs.Called.{Numbered, Into, Judged};

use records::State;

// The answer's number alone; every buffer is the call's own.
#[unsafe(no_mangle)]
pub extern "C" fn rulebook_check(book: &[u8], budget: u32) -> u32
    ensures { Numbered book.now budget result }
{
    host::rulebook_check(book, budget)
}

// The check over lent buffers, so that a host can show the structure; the answer's fields go into `answer`.
#[unsafe(no_mangle)]
pub extern "C" fn rulebook_check_into(
    book: &[u8],
    budget: u32,
    states: &mut [State],
    words: &mut [u32],
    clauses: &mut [i16],
    values: &mut [u8],
    work: &mut [u16],
    answer: &mut [u32],
) -> u32
    ensures { Into book.now budget (lent (numbers_of states.old) words.old clauses.old values.old work.old) answer.old (lent (numbers_of states.new) words.new clauses.new values.new work.new) answer.new result }
{
    host::rulebook_check_into(book, budget, states, words, clauses, values, work, answer)
}

// Whether the book is true at state 1 of the structure that lies in the buffers: 1 or 2, or a refusal 10 to 14.
#[unsafe(no_mangle)]
pub extern "C" fn rulebook_evaluate(
    book: &[u8],
    states: &[State],
    states_count: usize,
    words: &[u32],
    variables_count: usize,
    values: &[u8],
    work: &mut [u8],
) -> u32
    ensures { Judged book.now (numbers_of states.now) states_count words.now variables_count values.now work.old work.new result }
{
    host::rulebook_evaluate(
        book,
        states,
        states_count,
        words,
        variables_count,
        values,
        work,
    )
}
