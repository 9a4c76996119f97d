// Document 01's numbers for each answer.
ghost use Rattle.std.specs.Prelude.{◌≡◌};
ghost use Rattle.checker.specs.Checked.{told};

use super::Answer;
use book::NoAnswer;
use branching::Outcome;
use encoding::Build;

pub fn number(answer: Result<Answer, NoAnswer>) -> u32
    ensures { result ≡ (told answer).number }
{
    match answer {
        Ok(a) => u32::from(a.outcome),
        Err(e) => u32::from(e),
    }
}

pub fn place(answer: Result<Answer, NoAnswer>) -> usize
    ensures { result ≡ (told answer).place }
{
    match answer {
        Ok(_) => 0,
        Err(e) => e.place(),
    }
}

// "A refusal has totals and count 0."
pub fn totals(answer: Result<Answer, NoAnswer>) -> Build
    ensures { (result.states ≡ (told answer).states) × (result.variables ≡ (told answer).variables) × (result.clauses ≡ (told answer).clauses) }
{
    match answer {
        Ok(a) => a.totals,
        Err(_) => Build {
            states: 0,
            variables: 0,
            clauses: 0,
        },
    }
}

pub fn count(answer: Result<Answer, NoAnswer>) -> u32
    ensures { result ≡ (told answer).count }
{
    match answer {
        Ok(a) => match a.outcome {
            Outcome::Yes(n) | Outcome::No(n) | Outcome::Stopped(n) => n,
        },
        Err(_) => 0,
    }
}
