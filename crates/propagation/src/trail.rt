// The trail: which variables were assigned, in order, so that they can be undone. An entry is twice a variable's place, and one more if it was made false, so
// that the clauses of the literal that became false are linked at the place after it; a first branch has FIRST added, and the number of unmet clauses at it is
// saved under the same entry.
ghost use Rattle.std.specs.Prelude.{◌≡◌, ◌+◌, ◌*◌, ◌/◌, ◌%◌, ◌≤◌, ◌<◌, length};
ghost use Rattle.propagation.specs.Trail.{entry_for, first_branch, LatestFirst};

// A mark within an entry and not beside it: a trail is as many numbers of 16 bits as there are variables.
pub const FIRST: u16 = 32768;

// The entry that notes the mark m, 1 or 2, of the variable at i.
pub fn entry(i: usize, m: u8) -> u16
    requires { (i < 16384) × (0 < m) × (m < 3) }
    ensures { result ≡ entry_for i m }
{
    let e = (2 * i) as u16;
    if m == 1 { e } else { e + 1 }
}

// The place of the variable that an entry notes.
pub fn noted(e: u16) -> usize
    ensures { result ≡ e % first_branch / 2 }
{
    (e % FIRST / 2) as usize
}

// Which of the first n entries notes the latest first branch.
pub fn latest_first(trail: &[u16], n: usize) -> Option<usize>
    requires { n ≤ length trail.now }
    ensures { LatestFirst trail.now n result }
{
    trail[..n].iter().rposition(|e| FIRST <= *e)
}
