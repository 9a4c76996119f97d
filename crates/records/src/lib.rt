// Document 01, "a lent table of state records (512; parent, relation, making variable)": the table as a slice of records, and the way between it and the
// same records as numbers, three to a record, in which the definitions speak of it; the ways are for callers that have the numbers alone.
#![tactic(auto)]

ghost use Rattle.std.specs.Prelude.{◌≡◌, ◌+◌, ◌*◌, ◌≤◌, ◌<◌, length, get_or};
ghost use Rattle.ground.specs.Buffer.{filled};
ghost use Rattle.records.specs.Table.{zero_state, row_at, row_put, rows, numbers_of};

#[repr(C)]
#[derive(Clone, Copy, PartialEq, Eq, Debug)]
pub struct State {
    pub parent: u16,
    pub relation: u16,
    pub maker: u16,
}

// An unused place of the table: all 0.
pub const UNUSED: State = State {
    parent: 0,
    relation: 0,
    maker: 0,
};

// The record at place i of the numbers.
pub fn row_of(numbers: &[u16], i: usize) -> State
    requires { 3 * i + 3 ≤ length numbers.now }
    ensures { result ≡ row_at numbers.now i }
{
    let at = 3 * i;
    State {
        parent: numbers[at],
        relation: numbers[at + 1],
        maker: numbers[at + 2],
    }
}

// The record s goes to place i of the numbers.
pub fn put_row(numbers: &mut [u16], i: usize, s: State)
    requires { 3 * i + 3 ≤ length numbers.old }
    ensures { numbers.new ≡ row_put numbers.old i s }
{
    let at = 3 * i;
    numbers[at] = s.parent;
    numbers[at + 1] = s.relation;
    numbers[at + 2] = s.maker;
}

// The record at place i of the table.
pub fn record_at(t: &[State], i: usize) -> State
    requires { i < length t.now }
    ensures { result ≡ get_or t.now i zero_state }
{
    t[i]
}

// The first n records of the table become those of the numbers. One pass over them.
#[tactic(auto, using(crate::proofs::Tables::filled_none, crate::proofs::Tables::filled_next, crate::proofs::Tables::get_or_rows))]
pub fn publish(t: &mut [State], numbers: &[u16], n: usize)
    requires { (n ≤ length t.old) × (3 * n ≤ length numbers.now) }
    ensures { t.new ≡ filled zero_state n (rows numbers.now) t.old }
{
    for i in 0..n {
        t[i] = row_of(numbers, i);
    }
}

// The first 3 × n numbers become those of the first n records of the table. One pass over them.
#[tactic(auto, using(crate::proofs::Tables::filled_none, crate::proofs::Tables::row_next))]
pub fn gather(t: &[State], numbers: &mut [u16], n: usize)
    requires { (n ≤ length t.now) × (3 * n ≤ length numbers.old) }
    ensures { numbers.new ≡ filled 0 (3 * n) (numbers_of t.now) numbers.old }
{
    for i in 0..n {
        put_row(numbers, i, record_at(t, i));
    }
}
