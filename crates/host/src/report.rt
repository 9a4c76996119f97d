// An answer as six numbers.
ghost use Rattle.std.specs.Prelude.{◌≡◌, ◌++◌, ◌≤◌, length, drop};
ghost use Rattle.checker.specs.Checked.{told};
ghost use Rattle.host.specs.Called.{fields_of};
ghost use Rattle.host.specs.Steps.{Small};

use book::NoAnswer;
use checker::Answer;

pub const FIELDS: usize = 6;

// Number, place, totals and count go into the first six places.
pub fn report(out: &mut [u32], answer: Result<Answer, NoAnswer>)
    requires { Small (told answer) × (6 ≤ length out.old) }
    ensures { out.new ≡ fields_of (told answer) ++ drop 6 out.old }
{
    let totals = checker::totals(answer);
    out[0] = checker::number(answer);
    out[1] = checker::place(answer) as u32;
    out[2] = totals.states as u32;
    out[3] = totals.variables as u32;
    out[4] = totals.clauses as u32;
    out[5] = checker::count(answer);
}
