//! Repeated fields.

ghost use Rattle.std.specs.Prelude.{◌≡◌, []};
ghost use Rattle.std.specs.Cmp.Lexicographic.{pointwise, lists_per, lists_equiv};

use std::alloc::Global;
use std::marker::Model;

/// The values of a repeated field in their order, which contracts see as a list.
#[derive(Debug, Drop)]
pub struct Repeated<T> {
    values: Vec<T>,
}

impl<T> Model for Repeated<T> {
    ghost use Rattle.std.specs.Prelude.{List};

    ghost Value = { List T };

    ghost view = { λ r. r.values.items };
}

impl<T> Repeated<T> {
    /// No values.
    pub fn new(alloc: Global) -> Repeated<T>
        ensures { result ≡ [] }
    {
        Repeated {
            values: Vec::new(alloc),
        }
    }

    /// These values, in their order.
    pub fn from_vec(values: Vec<T>) -> Repeated<T>
        ensures { result ≡ values.items }
    {
        Repeated { values }
    }

    /// The values, in their order.
    pub fn into_vec(self) -> Vec<T>
        ensures { result.items ≡ self }
    {
        let Repeated { values } = self;
        values
    }

    /// The values, borrowed.
    pub fn as_slice(&self) -> &[T]
        ensures { result.now ≡ self.now }
    {
        self.values.as_slice()
    }
}

impl<T: PartialEq> PartialEq for Repeated<T> {
    ghost eq = { pointwise T.eq };

    ghost laws = { lists_per T.laws };

    fn eq(&self, other: &Repeated<T>) -> bool {
        self.as_slice() == other.as_slice()
    }
}

impl<T: Eq> Eq for Repeated<T> {
    ghost laws = { lists_equiv T.Eq.laws };
}
