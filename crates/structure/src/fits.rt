// Whether what lies in the buffers has its size, and a total is that of a build.
ghost use Rattle.std.specs.Prelude.{◌≡◌};
ghost use Rattle.structure.specs.Evaluation as def;

use super::Structure;
use encoding::Build;

// Whether a buffer of variables has its size, and v is a number of variables that a build can have.
#[tactic(auto, unfolding(crate::specs::Evaluation::variables_fit))]
pub(crate) fn variables_fit<T>(v: usize, xs: &[T]) -> bool
    ensures { result ≡ def.variables_fit v xs.now }
{
    v <= Build::VARIABLES && Build::VARIABLES <= xs.len()
}

impl<'a> Structure<'a> {
    ghost use Rattle.structure.specs.Held.{numbers};

    // Whether the table has its size, and the number of states is one that a build can have.
    #[tactic(auto, using(crate::proofs::Sizes::states_fit_records))]
    pub fn states_fit(&self) -> bool
        ensures { result ≡ def.states_fit self.now.states_count (numbers self.now) }
    {
        let n = self.states_count;
        1 <= n && n <= Build::STATES && Build::STATES <= self.states.len()
    }

    // The same of the words.
    #[tactic(auto, unfolding(crate::specs::Evaluation::variables_fit))]
    pub fn words_fit(&self) -> bool
        ensures { result ≡ def.variables_fit self.now.variables_count self.now.words.now }
    {
        variables_fit(self.variables_count, self.words)
    }

    // The same of the values.
    pub fn values_fit(&self) -> bool
        ensures { result ≡ def.variables_fit self.now.variables_count self.now.values.now }
    {
        variables_fit(self.variables_count, self.values)
    }
}
