// The state of a sheet: the words of a table that has the layout.
ghost use Rattle.std.specs.Prelude.{◌≡◌, ℕ, ◌<◌, length};
ghost use Rattle.table.specs.Layout.{Fine};

#[derive(Drop)]
pub struct Sheet {
    pub words: [i32; 2668],
    ghost whole: { length words ≡ 2668 },
    ghost fine: { (w : ℕ) → w < 2668 → Fine words w },
}
