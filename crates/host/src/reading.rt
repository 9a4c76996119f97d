// What an evaluation reads of a table of states, and its answer by number.
ghost use Rattle.std.specs.Prelude.{◌≡◌, min};
ghost use Rattle.encoding.specs.Limits.{max_states};
ghost use Rattle.structure.specs.Evaluation.{told};

use book::NoAnswer;
use encoding::Build;

// How many records of a table are read: as many as its size says, or all that it has. What lies beyond the size is not even lent on.
pub fn readable(room: usize) -> usize
    ensures { result ≡ min max_states room }
{
    room.min(Build::STATES)
}

// Document 01's number for each answer. One function with the check's `number` would be no plainer: `bool` has no `From` that gives 1 and 2, and a
// trait for it would repeat this match.
#[tactic(auto, unfolding(structure::specs::Evaluation::told))]
pub fn number(answer: Result<bool, NoAnswer>) -> u32
    ensures { result ≡ (told answer).number }
{
    match answer {
        Ok(true) => 1,
        Ok(false) => 2,
        Err(e) => u32::from(e),
    }
}
