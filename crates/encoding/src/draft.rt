// What a build writes beside its states. The counts stay beside it, by value, as document 01 has them pass from one asking to the next: so what joins both,
// that the index is that of so many words (`Holds`), stands in the clauses. `SameDraft` is what every call says besides of a struct of references: that they
// are still the same.
ghost use Rattle.std.specs.Prelude.{◌*◌, ◌≤◌, length};
ghost use Rattle.encoding.specs.Limits.{max_clauses};

use crate::index::Index;

// The words, found again, and the clause numbers, three to a clause. Each reference has a lifetime of its own, so that what was lent apart comes back apart.
#[derive(Drop)]
pub struct Draft<'i, 'w, 'c> {
    pub index: &'i mut Index<'w>,
    pub clauses: &'c mut [i16],
    ghost clauses_long: { 3 * max_clauses ≤ length clauses.now },
}
