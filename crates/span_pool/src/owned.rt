//! Values of which each is one tenant's.

ghost use Rattle.std.specs.Prelude.{◌≡◌, ℕ};

/// A value that is one tenant's, as a span.
pub trait Owned: Drop {
    ghost owner: { Self → ℕ };

    /// The number of the tenant whose it is.
    fn owner(&self) -> u32
        ensures { result ≡ owner self.now };
}
