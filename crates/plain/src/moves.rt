// How a search moves: to the next variable, or back to the last 0.
ghost use Rattle.std.specs.Prelude.{◌≡◌, ℕ, ◌+◌, ◌<◌, ◌≤◌, length};
ghost use Rattle.rules.specs.Rule.{at, marked};
ghost use Rattle.rules.specs.declared.Mark.TheVariants.{Free};
ghost use Rattle.backtrack.specs.Walk.{deeper, turned};
ghost use Rattle.backtrack.specs.Clause.{opposed, refuted};
ghost use Rattle.plain.specs.Marks.{ZeroFound, OpposedFound, cleared};

use super::walk::Walk;
use rules::Mark;
use rules::term::WIDTH;
use std::array;

// Whether two marks exclude each other.
fn opposes(a: Mark, b: Mark) -> bool
    ensures { result ≡ opposed a b }
{
    matches!((a, b), (Mark::Zero, Mark::One) | (Mark::One, Mark::Zero))
}

// Whether one of the first marks of a excludes that of b.
pub fn any_opposes(a: &[Mark; 80], b: &[Mark; 80], depth: usize) -> bool
    requires { depth ≤ 80 }
    ensures { OpposedFound (marked a.now) (marked b.now) depth result }
{
    a.iter().zip(b).take(depth).any(|(a, b)| opposes(*a, *b))
}

// The coefficient of the literal that a mark makes false: three cases and three numbers, which no call says shorter.
fn refuting(mark: Mark) -> i32
    ensures { result ≡ refuted mark }
{
    match mark {
        Mark::Free => 0,
        Mark::Zero => 1,
        Mark::One => -1,
    }
}

impl Walk {
    // Nothing is marked.
    pub fn start() -> Walk
        ensures free { (i : ℕ) → marked result.marks i ≡ Free }
        ensures depth { result.depth ≡ 0 }
    {
        Walk {
            marks: [Mark::Free; WIDTH],
            depth: 0,
        }
    }

    // The next variable gets 0.
    pub fn deepen(&mut self)
        requires { self.old.depth < 80 }
        ensures marks { (i : ℕ) → marked self.new.marks i ≡ deeper (marked self.old.marks) self.old.depth i }
        ensures depth { self.new.depth ≡ self.old.depth + 1 }
    {
        self.marks[self.depth] = Mark::Zero;
        self.depth += 1;
    }

    // The last of the marked variables that is 0.
    pub fn last_zero(&self) -> Option<usize>
        ensures { ZeroFound (marked self.now.marks) self.now.depth result }
    {
        self.marks[..self.depth]
            .iter()
            .rposition(|mark| *mark == Mark::Zero)
    }

    // The variable t turns to 1, and those after it are cleared.
    pub fn turn(&mut self, t: usize)
        requires { t < 80 }
        ensures marks { (i : ℕ) → marked self.new.marks i ≡ turned (marked self.old.marks) t i }
        ensures depth { self.new.depth ≡ t + 1 }
    {
        clear_after(&mut self.marks, t);
        self.marks[t] = Mark::One;
        self.depth = t + 1;
    }
}

// Clears the marks after t.
fn clear_after(marks: &mut [Mark; 80], t: usize)
    requires { t < 80 }
    ensures marks { (i : ℕ) → marked marks.new i ≡ cleared (marked marks.old) t i }
    ensures wide { length marks.new ≡ 80 }
{
    marks[t + 1..].fill(Mark::Free);
}

// The coefficients of the clause of all literals that the marks make false. `map` goes over an array three times, `from_fn` once.
pub fn clause_row(marks: &[Mark; 80]) -> [i32; 80]
    ensures { (i : ℕ) → at result i ≡ refuted (marked marks.now i) }
{
    array::from_fn(|i| refuting(marks[i]))
}
