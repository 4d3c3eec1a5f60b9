// A table that has the layout, made where `check` has passed it, and its rows. The words are a slice, as callers hold them.
ghost use Rattle.std.specs.Prelude.{◌≡◌, ℕ, ◌<◌, length};
ghost use Rattle.table.specs.Layout.{Fine};

#[derive(Clone, Copy)]
pub struct Checked<'a> {
    pub words: &'a [i32],
    ghost whole: { length words.now ≡ 2668 },
    ghost fine: { (w : ℕ) → w < 2668 → Fine words.now w },
}

// The row of the rule of this number, counted from 0.
#[derive(Clone, Copy)]
pub struct Row<'a> {
    pub sheet: Checked<'a>,
    pub number: usize,
    ghost there: { number < 64 },
}
