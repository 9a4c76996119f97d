// The lines that the program prints.
ghost use Rattle.std.specs.Prelude.{◌+◌, ◌<◌, ◌≤◌, ◌++◌, OnOk, OnErr, List, ℕ};
ghost use Rattle.std.specs.Io.KnownBytes.{Appends};
ghost use Rattle.encoding.specs.Limits.{max_states};
ghost use Rattle.streams.specs.Writing.{Begins};
ghost use Rattle.rulecheck.specs.Lines.{spaced, begun, newline, refusal_line, size_line, verdict_line, marked, state_line, line_at, lines_of};

use encoding::Build;
use std::io;
use std::io::Write;
use streams::write_full;
use structure::{ATOMS, Edge, Structure, marked};

// "refused, number, place"
pub fn refusal<W: Write>(out: &mut W, number: u64, place: usize) -> io::Result<()>
    ensures written { OnOk result (Appends (W.contents out.old) (W.contents out.new) (refusal_line number place)) }
    ensures error { OnErr result (Begins (W.contents out.old) (W.contents out.new) (refusal_line number place)) }
{
    begin(out, b"refused", &[number, place as u64])?;
    end(out)
}

// "First line: states, variables, clauses. Second: yes, no or stopped, and the count."
pub fn verdict<W: Write>(out: &mut W, b: Build, word: &[u8], count: u32) -> io::Result<()>
    ensures written { OnOk result (Appends (W.contents out.old) (W.contents out.new) (size_line b.states b.variables b.clauses ++ verdict_line word.now count)) }
    ensures error { OnErr result (Begins (W.contents out.old) (W.contents out.new) (size_line b.states b.variables b.clauses ++ verdict_line word.now count)) }
{
    begin(
        out,
        b"size",
        &[b.states as u64, b.variables as u64, b.clauses as u64],
    )?;
    end(out)?;
    begin(out, word, &[u64::from(count)])?;
    end(out)
}

// "For yes, each living state by number". One pass over the states, and for each that lives one over the words.
#[tactic(auto, unfolding(crate::specs::Lines::lives_at))]
pub fn structure<W: Write>(out: &mut W, structure: &Structure) -> io::Result<()>
    ensures written { OnOk result (Appends (W.contents out.old) (W.contents out.new) (lines_of structure.now)) }
    ensures error { OnErr result (Begins (W.contents out.old) (W.contents out.new) (lines_of structure.now)) }
{
    let mut lives = [0u8; Build::STATES];
    structure.mark_living(&mut lives);
    show_marked(out, &lives, structure)
}

// The line of a state: its edge and its true atoms, read from the buffers.
#[tactic(auto, unfolding(crate::specs::Lines::atoms_at))]
fn state<W: Write>(out: &mut W, structure: &Structure, s: usize) -> io::Result<()>
    ensures written { OnOk result (Appends (W.contents out.old) (W.contents out.new) (line_at structure.now s)) }
    ensures error { OnErr result (Begins (W.contents out.old) (W.contents out.new) (line_at structure.now s)) }
{
    let edge = structure.edge_to(s);
    let mut atoms = [0u8; ATOMS];
    structure.mark_atoms(s, &mut atoms);
    line(out, s, edge, &atoms)
}

// "state, parent, relation, then its true atoms ascending"
fn line<W: Write>(out: &mut W, s: usize, edge: Edge, atoms: &[u8; ATOMS]) -> io::Result<()>
    ensures written { OnOk result (Appends (W.contents out.old) (W.contents out.new) (state_line s edge.parent edge.relation atoms.now)) }
    ensures error { OnErr result (Begins (W.contents out.old) (W.contents out.new) (state_line s edge.parent edge.relation atoms.now)) }
{
    begin(
        out,
        b"state",
        &[s as u64, edge.parent as u64, edge.relation as u64],
    )?;
    show_marked(out, atoms, &Number)?;
    end(out)
}

// What is written for a marked place.
trait Shown {
    ghost text: { Self → ℕ → List ℕ };

    fn show<W: Write>(&self, out: &mut W, place: usize) -> io::Result<()>
        requires { place < max_states }
        ensures written { OnOk result (Appends (W.contents out.old) (W.contents out.new) (text self.now place)) }
        ensures error { OnErr result (Begins (W.contents out.old) (W.contents out.new) (text self.now place)) };
}

// For a living state, its line: state 1 stands at the first place.
impl Shown for Structure<'_> {
    ghost text = { λ s i. line_at s (i + 1) };

    fn show<W: Write>(&self, out: &mut W, place: usize) -> io::Result<()> {
        state(out, self, place + 1)
    }
}

// A number, after a space.
struct Number;

impl Shown for Number {
    ghost text = { λ s i. spaced i };

    fn show<W: Write>(&self, out: &mut W, place: usize) -> io::Result<()> {
        put(out, place as u64)
    }
}

// What is shown of the marked places, ascending.
#[tactic(auto, using(crate::proofs::Written::marks_written))]
fn show_marked<W: Write, S: Shown, const N: usize>(
    out: &mut W,
    marks: &[u8; N],
    of: &S,
) -> io::Result<()>
    requires { N ≤ max_states }
    ensures written { OnOk result (Appends (W.contents out.old) (W.contents out.new) (marked marks.now (S.text of.now) N)) }
    ensures error { OnErr result (Begins (W.contents out.old) (W.contents out.new) (marked marks.now (S.text of.now) N)) }
{
    for i in 0..N {
        if marked(marks, i) {
            of.show(out, i)?;
        }
    }
    Ok(())
}

// The beginning of a line: a word, and each number after a space.
fn begin<W: Write>(out: &mut W, word: &[u8], numbers: &[u64]) -> io::Result<()>
    ensures written { OnOk result (Appends (W.contents out.old) (W.contents out.new) (begun word.now numbers.now)) }
    ensures error { OnErr result (Begins (W.contents out.old) (W.contents out.new) (begun word.now numbers.now)) }
{
    write_full(out, word)?;
    for n in numbers {
        put(out, *n)?;
    }
    Ok(())
}

// A space and a number.
fn put<W: Write>(out: &mut W, n: u64) -> io::Result<()>
    ensures written { OnOk result (Appends (W.contents out.old) (W.contents out.new) (spaced n)) }
    ensures error { OnErr result (Begins (W.contents out.old) (W.contents out.new) (spaced n)) }
{
    let mut digits = itoa::Buffer::new();
    write_full(out, b" ")?;
    write_full(out, digits.format(n).as_bytes())
}

// The end of a line.
fn end<W: Write>(out: &mut W) -> io::Result<()>
    ensures written { OnOk result (Appends (W.contents out.old) (W.contents out.new) newline) }
    ensures error { OnErr result (Begins (W.contents out.old) (W.contents out.new) newline) }
{
    write_full(out, b"\n")
}
