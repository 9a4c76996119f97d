// How a build counts: from its start on, one more by each step, and no further once it is over a limit.
ghost use Rattle.std.specs.Prelude.{◌≡◌, ◌<◌, Err};
ghost use Rattle.encoding.specs.Limits.{max_states, max_variables, max_clauses};
ghost use Rattle.encoding.specs.Shows.{at_start, with_state, with_variable, with_clause, gone_over, counted, after};

use crate::counts::{Build, Counts, Over};

impl Build {
    // State 1 and nothing else.
    pub fn start() -> Counts
        ensures { counted result ≡ at_start }
    {
        Counts {
            states: 1,
            variables: 0,
            clauses: 0,
        }
    }
}

impl Counts {
    pub fn with_state(self) -> Counts
        requires { self.states < max_states }
        ensures { counted result ≡ with_state (counted self) }
    {
        Counts {
            states: self.states + 1,
            variables: self.variables,
            clauses: self.clauses,
        }
    }

    pub fn with_variable(self) -> Counts
        requires { self.variables < max_variables }
        ensures { counted result ≡ with_variable (counted self) }
    {
        Counts {
            states: self.states,
            variables: self.variables + 1,
            clauses: self.clauses,
        }
    }

    pub fn with_clause(self) -> Counts
        requires { self.clauses < max_clauses }
        ensures { counted result ≡ with_clause (counted self) }
    {
        Counts {
            states: self.states,
            variables: self.variables,
            clauses: self.clauses + 1,
        }
    }

    // Over a limit, and so for good.
    pub fn spilt(self) -> Over
        ensures { after (Err result) ≡ gone_over (counted self) }
    {
        Over {
            counts: Build::from(self),
        }
    }
}
