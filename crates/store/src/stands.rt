// What stands on a variable: a literal, or a term.
ghost use Rattle.std.specs.Prelude.{◌≡◌, ℕ, ◌<◌, length, Decides};
ghost use Rattle.store.specs.Stands.{StandsBefore, StandsAlone};

use rules::term::{Literal, Term};

pub trait OnVariable {
    ghost variable: { Self → ℕ };

    fn variable(&self) -> usize
        ensures { result ≡ variable self.now };
}

impl OnVariable for Literal {
    ghost variable = { λ l. l.variable };

    fn variable(&self) -> usize {
        self.variable
    }
}

impl OnVariable for Term {
    ghost variable = { λ t. t.literal.variable };

    fn variable(&self) -> usize {
        self.literal.variable
    }
}

// Whether an item before this index stands on the same variable.
fn repeats<T: OnVariable>(items: &[T], i: usize) -> bool
    requires { i < length items.now }
    ensures { Decides result (StandsBefore T.variable items.now i) }
{
    let variable = items[i].variable();
    items[..i].iter().any(|item| item.variable() == variable)
}

// Whether the item of this index stands on one of the variables, and none before it on the same.
pub fn stands_alone<T: OnVariable>(items: &[T], i: usize, variables: usize) -> bool
    requires { i < length items.now }
    ensures { Decides result (StandsAlone T.variable variables items.now i) }
{
    items[i].variable() < variables && !repeats(items, i)
}
