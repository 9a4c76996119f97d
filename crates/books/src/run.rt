// One book, checked within several budgets.
use book::NoAnswer;
use branching::Outcome;
use checker::{Answer, BUDGET, Buffers, Lent};
use encoding::Build;
use std::io;

// The answer at the program's budget; and if that finished, the answers at 0, C − 1, C, C + 1 and 2^32 − 1.
pub fn tries(rt: &impl Print, book: &[u8]) -> io::Result<()> {
    match once(rt, book, BUDGET)? {
        Some(c) => around(rt, book, c),
        None => end(rt),
    }
}

fn around(rt: &impl Print, book: &[u8], c: u32) -> io::Result<()> {
    once(rt, book, 0)?;
    if 0 < c {
        once(rt, book, c - 1)?;
    }
    once(rt, book, c)?;
    if c < u32::MAX {
        once(rt, book, c + 1)?;
    }
    once(rt, book, u32::MAX)?;
    end(rt)
}

// The answer within a budget, after a yes evaluated; the count of a search that finished.
fn once(rt: &impl Print, book: &[u8], budget: u32) -> io::Result<Option<u32>> {
    let mut own = Buffers::new();
    let mut buffers = own.lend();
    let answer = checker::check(book, budget, &mut buffers);
    print!(rt; "\n  within {budget}:")?;
    tell(rt, answer)?;
    let Ok(Answer { totals, outcome }) = answer else {
        return Ok(None);
    };
    match outcome {
        Outcome::Yes(c) => {
            evaluate(rt, book, totals, &buffers)?;
            Ok(Some(c))
        }
        Outcome::No(c) => Ok(Some(c)),
        Outcome::Stopped(_) => Ok(None),
    }
}

// "number, place, totals, count"
fn tell(rt: &impl Print, answer: Result<Answer, NoAnswer>) -> io::Result<()> {
    let totals = checker::totals(answer);
    let number = checker::number(answer);
    let place = checker::place(answer);
    let states = totals.states;
    let variables = totals.variables;
    let clauses = totals.clauses;
    let count = checker::count(answer);
    print!(rt; " {number} {place} {states} {variables} {clauses} {count}")
}

// Whether the book is true at state 1 of the structure that lies in the buffers of a build with these totals.
fn evaluate(rt: &impl Print, book: &[u8], totals: Build, buffers: &Lent) -> io::Result<()> {
    let mut work = [0u8; evaluation::WORK];
    match evaluation::evaluate(book, &buffers.structure(totals), &mut work) {
        Ok(true) => print!(rt; " true"),
        Ok(false) => print!(rt; " false"),
        Err(_) => print!(rt; " not evaluated"),
    }
}

fn end(rt: &impl Print) -> io::Result<()> {
    println!(rt)
}
