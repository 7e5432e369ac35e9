//! A value that contracts alone read.

ghost use Rattle.std.specs.Prelude.{◌≡◌};

use std::marker::{Model, PhantomData};

/// A value, as contracts remember it. It has no bytes.
///
/// It is std's `Snapshot`, of which no check finds that it may go to another thread once a type holds it.
pub(crate) struct Remembered<T> {
    marker: PhantomData<T>,
    pub(crate) ghost value: { T },
}

impl<T> Model for Remembered<T> {
    ghost use Rattle.std.specs.Borrow.{ftrue};

    ghost also_owns = { λ _. ftrue };
}

impl<T> Remembered<T> {
    pub(crate) fn of(x: &T) -> Remembered<T>
        ensures { result.value ≡ x.now }
    {
        let _ = x;
        Remembered {
            marker: PhantomData,
        }
    }
}

// It owns nothing.
unsafe impl<T> Send for Remembered<T> {}

impl<T> Drop for Remembered<T> {
    fn drop(self) {
        let Self { marker: _ } = self;
    }
}
