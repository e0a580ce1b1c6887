// The text of a list.
ghost use Rattle.lines.specs.Spaced.{spaced};

use std::fmt::{self, Display, Formatter};

// The items of a list, each after a space.
#[derive(Clone, Copy)]
pub struct Spaced<'a, T>(pub &'a [T]);

impl<T: Display> Display for Spaced<'_, T> {
    ghost output = { λ s. spaced T.output s.0.now };

    fn fmt<W: fmt::Write>(&self, f: &mut Formatter<W>) -> fmt::Result {
        for item in self.0 {
            write!(f, " {item}")?;
        }
        Ok(())
    }
}
