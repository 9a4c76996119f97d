// The program: a book on standard input, its answer on standard output, as document 01 prints it.
#![tactic(auto)]

ghost use Rattle.std.specs.Prelude.{◌≤◌, Ok, OnOk, OnErr, IfSome, List, length, ℕ};
ghost use Rattle.std.specs.Io.KnownBytes.{Appends, Consumes};
ghost use Rattle.streams.specs.Writing.{Begins};
ghost use Rattle.checker.specs.Checked.{leaving, told};
ghost use Rattle.checker.specs.Lending.{held};
ghost use Rattle.rulecheck.specs.Printed.{printed_after, printed_of, printed_for};

mod show;

use book::NoAnswer;
use branching::Outcome;
use checker::{Answer, BUDGET, Buffers, Lent, MOST_BYTES};
use std::io;
use std::io::{Read, Write};
use streams::read_full;

fn main(rt: HostRuntime) -> io::Result<()> {
    run(&mut rt.reader(), &mut io::writer(&rt))
}

// Reads a book and prints its answer. After an error a beginning of that is written, and not the whole; at most 8,193 bytes are read.
fn run<R: Read, W: Write>(input: &mut R, out: &mut W) -> io::Result<()>
    ensures written { OnOk result (IfSome (R.remaining input.old) (λ xs. Appends (W.contents out.old) (W.contents out.new) (printed_for xs))) }
    ensures error { OnErr result (IfSome (R.remaining input.old) (λ xs. Begins (W.contents out.old) (W.contents out.new) (printed_for xs))) }
    ensures taken { (bs : List ℕ) × (length bs ≤ 8193) × Consumes (R.remaining input.old) (R.remaining input.new) bs }
{
    let mut book = [0u8; MOST_BYTES];
    let n = read_full(input, &mut book)?;
    answer(out, &book[..n])
}

fn answer<W: Write>(out: &mut W, book: &[u8]) -> io::Result<()>
    ensures written { OnOk result (Appends (W.contents out.old) (W.contents out.new) (printed_of book.now)) }
    ensures error { OnErr result (Begins (W.contents out.old) (W.contents out.new) (printed_of book.now)) }
{
    let mut own = Buffers::new();
    let mut buffers = own.lend();
    let answer = checker::check(book, BUDGET, &mut buffers);
    lines(out, answer, &buffers)
}

// The lines of an answer, or of a refusal.
#[tactic(auto, unfolding(crate::specs::Printed::printed))]
fn lines<W: Write>(out: &mut W, answer: Result<Answer, NoAnswer>, buffers: &Lent) -> io::Result<()>
    ensures written { OnOk result (Appends (W.contents out.old) (W.contents out.new) (printed_after (leaving (told answer) (held buffers.now)))) }
    ensures error { OnErr result (Begins (W.contents out.old) (W.contents out.new) (printed_after (leaving (told answer) (held buffers.now)))) }
{
    match answer {
        Ok(answer) => verdict(out, answer, buffers),
        Err(e) => show::refusal(out, u64::from(u32::from(e)), e.place()),
    }
}

// The lines of a verdict; after a yes, of the structure that lies in the buffers.
#[tactic(auto, using(crate::proofs::Written::appends_more), unfolding(crate::specs::Printed::printed))]
fn verdict<W: Write>(out: &mut W, answer: Answer, buffers: &Lent) -> io::Result<()>
    ensures written { OnOk result (Appends (W.contents out.old) (W.contents out.new) (printed_after (leaving (told (Ok answer)) (held buffers.now)))) }
    ensures error { OnErr result (Begins (W.contents out.old) (W.contents out.new) (printed_after (leaving (told (Ok answer)) (held buffers.now)))) }
{
    let totals = answer.totals;
    match answer.outcome {
        Outcome::Yes(n) => {
            show::verdict(out, totals, b"yes", n)?;
            show::structure(out, &buffers.structure(totals))
        }
        Outcome::No(n) => show::verdict(out, totals, b"no", n),
        Outcome::Stopped(n) => show::verdict(out, totals, b"stopped", n),
    }
}
