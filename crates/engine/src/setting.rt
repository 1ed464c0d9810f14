// The grammar and the text of a run.
ghost use Rattle.std.specs.Prelude.{◌≡◌, None};
ghost use Rattle.reading.specs.Grammar.{misfit};
ghost use Rattle.reading.specs.Nullable.{still_repeat};

// What stays the same through a run: the grammar, the text, and how many tokens the area has room for.
#[derive(Clone, Copy)]
pub(crate) struct Setting<'i> {
    pub nodes: &'i [i32],
    pub literals: &'i [u8],
    pub text: &'i [u8],
    pub room: usize,
    // The grammar's tests have passed.
    ghost accepted: { (misfit nodes.now literals.now ≡ None) × (still_repeat nodes.now ≡ None) },
}
