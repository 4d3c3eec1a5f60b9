// Where a search stands: the marks of the first variables. The depth is not the length of a buffer: marks past it are free,
// and all eighty are read as an array.
ghost use Rattle.std.specs.Prelude.{◌≡◌, ◌≤◌, length};

use rules::Mark;

#[derive(Clone, Copy)]
pub struct Walk {
    pub marks: [Mark; 80],
    pub depth: usize,
    ghost wide: { length marks ≡ 80 },
    ghost deep: { depth ≤ 80 },
}
