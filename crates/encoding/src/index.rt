// The words, one for each variable, and how they are found again: by their chain, and by their state.
// Lent lists, so neither copied nor compared.
ghost use Rattle.std.specs.Prelude.{◌≡◌, ◌+◌, ◌*◌, ◌≤◌, length};
ghost use Rattle.encoding.specs.Limits.{max_states, max_variables};
ghost use Rattle.encoding.specs.Index.{chains};

#[derive(Drop)]
pub struct Index<'a> {
    pub words: &'a mut [u32],
    pub finder: &'a mut [u16],
    pub own: &'a mut [u16],
    ghost words_long: { max_variables ≤ length words.now },
    ghost finder_long: { length finder.now ≡ chains + max_variables },
    ghost own_long: { length own.now ≡ max_variables + 2 * (max_states + 1) },
}
