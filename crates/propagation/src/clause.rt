// What a clause says, read off the table of truths: nothing, that it fails, or that a literal is forced; and whether it is met.
// Signed numbers are taken apart here; everything else in this crate speaks of places, slots and marks.
// Marks stay numbers: they are the bytes of the search's definition, and of the values that a caller gets.
ghost use Rattle.std.specs.Prelude.{◌≡◌, ◌+◌, ◌*◌, ◌≤◌, ◌<◌, length, get_or, pos, nat_abs};
ghost use Rattle.search.specs.Search as def;
ghost use Rattle.propagation.specs.Judging.{Weighs, Judges, JudgesMet, Table};
ghost use Rattle.propagation.specs.Judging as judging;

// What a clause says; what is forced is the literal that stands at a place in it.
#[derive(Clone, Copy, PartialEq, Eq, Debug)]
pub enum Told {
    Quiet,
    Fails,
    Forces(usize),
}

// The i-th clause, counting from 0.
pub fn clause_at(clauses: &[i16], i: usize) -> [i16; 3]
    requires { 3 * i + 3 ≤ length clauses.now }
    ensures { result ≡ judging.clause_at clauses.now i }
{
    let p = 3 * i;
    [clauses[p], clauses[p + 1], clauses[p + 2]]
}

// The literal at place k of a clause. The clause lies in registers: `c[k]` puts it into memory first, on the way of every forcing, and took up to 1.08 of the
// time.
pub fn literal_at(c: [i16; 3], k: usize) -> i16
    requires { (k < 3) × (nat_abs (get_or c k (pos 0)) < 4096) }
    ensures { result ≡ get_or c k (pos 0) }
{
    match k {
        0 => c[0],
        1 => c[1],
        _ => c[2],
    }
}

// Where a literal's variable stands.
pub fn place(l: i16) -> usize
    ensures { result ≡ def.place l }
{
    number(l).saturating_sub(1)
}

// A literal's variable by its number, 0 for an unused place.
pub fn number(l: i16) -> usize
    ensures { result ≡ nat_abs l }
{
    usize::from(l.unsigned_abs())
}

// The mark that makes a literal true.
pub fn mark(l: i16) -> u8
    ensures { result ≡ def.mark l }
{
    if l < 0 { 2 } else { 1 }
}

// True and false change places.
#[tactic(auto, using(crate::proofs::Table::turned_zero, crate::proofs::Table::turned_two, crate::proofs::Table::turned_else))]
pub fn turned(v: u8) -> u8
    ensures { result ≡ def.turned v }
{
    match v {
        0 => 0,
        2 => 1,
        _ => 2,
    }
}

// A mark as the table of truths has it.
#[tactic(auto, using(crate::proofs::Table::weight_zero, crate::proofs::Table::weight_one, crate::proofs::Table::weight_else))]
pub fn weight(v: u8) -> u8
    ensures { result ≡ judging.weight v }
{
    match v {
        0 => 1,
        1 => 4,
        _ => 0,
    }
}

// Where a literal stands in the table of truths.
fn slot(l: i16) -> usize
    requires { nat_abs l < 4096 }
    ensures { result ≡ judging.slot_of l }
{
    (l + 4096) as usize
}

// A literal's weight, or 0 if it stands in the clause already.
fn counted(w: u8, same: bool) -> u8
    ensures { result ≡ judging.counted w same }
{
    if same { 0 } else { w }
}

// What a clause says, from the weights of its three literals and whether two of them are the same.
fn judge(u: u8, v: u8, w: u8, xy: bool, xz: bool, yz: bool) -> Told
    requires { u + v + w < 256 }
    ensures { result ≡ judging.judged u v w xy xz yz }
{
    let sum = u + counted(v, xy) + counted(counted(w, xz), yz);
    if 1 < sum {
        return Told::Quiet;
    }
    if sum == 0 {
        return Told::Fails;
    }
    if u == 1 {
        return Told::Forces(0);
    }
    if v == 1 {
        return Told::Forces(1);
    }
    Told::Forces(2)
}

// The weights of a clause's literals, from the table of truths.
fn weights(c: [i16; 3], truth: &[u8]) -> [u8; 3]
    requires { Table c 1 truth.now }
    ensures { Weighs c truth.now result }
{
    let i = slot(c[0]);
    let j = slot(c[1]);
    let k = slot(c[2]);
    [truth[i], truth[j], truth[k]]
}

// What a clause says.
pub fn says(c: [i16; 3], truth: &[u8]) -> Told
    requires { Table c 1 truth.now }
    ensures { Judges c truth.now result }
{
    let x = c[0];
    let y = c[1];
    let z = c[2];
    let s = weights(c, truth);
    judge(s[0], s[1], s[2], x == y, x == z, y == z)
}

// Whether a clause has a true literal.
pub fn met(c: [i16; 3], truth: &[u8]) -> bool
    requires { Table c 1 truth.now }
    ensures { JudgesMet c truth.now result }
{
    let s = weights(c, truth);
    4 <= s[0] + s[1] + s[2]
}
