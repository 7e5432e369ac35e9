//! A field that is to stand once.
ghost use Rattle.std.specs.Prelude.{◌≡◌, ℕ, List, [], ◌∷◌, ◌++◌, option_copied};
ghost use Rattle.http_edge.specs.Fields.{single, field, only};
ghost use Rattle.http_edge.specs.Stages.{single_of};

use crate::fields::field;
use crate::headers::Headers;
use http1::text::eq_ignore_case;

/// The value of a field that is to stand at most once.
#[derive(Clone, Copy, Drop)]
pub enum Single<'a> {
    Absent,
    One(&'a [u8]),
    Repeated,
}

impl<'a> Single<'a> {
    /// What stands under the wanted name with one field more, whose value counts where it has that name, in any case.
    #[inline]
    pub fn and(self, wanted: &[u8], name: &[u8], value: &'a [u8]) -> Single<'a>
        ensures { (before : List (List ℕ × List ℕ)) → single_of self.entry ≡ field wanted.now before
            → single_of result ≡ field wanted.now (before ++ (name.now, value.now) ∷ []) }
    {
        if eq_ignore_case(name, wanted) {
            self.add(value)
        } else {
            self
        }
    }

    /// What stands there with one value more.
    #[inline]
    fn add(self, value: &'a [u8]) -> Single<'a>
        ensures { (before : List (List ℕ)) → single_of self.entry ≡ single before
            → single_of result ≡ single (before ++ value.now ∷ []) }
    {
        match self {
            Single::Absent => Single::One(value),
            Single::One(_) => Single::Repeated,
            Single::Repeated => Single::Repeated,
        }
    }

    /// The value, where there is exactly one.
    #[inline]
    pub fn only(self) -> Option<&'a [u8]>
        ensures { option_copied result ≡ only (single_of self.entry) }
    {
        match self {
            Single::One(value) => Some(value),
            Single::Absent | Single::Repeated => None,
        }
    }
}

/// The value of the field with this name, where there is exactly one. Names are compared in any case.
pub fn only_value<'a>(headers: &'a Headers, name: &[u8]) -> Option<&'a [u8]>
    ensures { option_copied result ≡ only (field name.now headers.now) }
{
    let (text, spans) = headers.parts();
    field(text, spans, name).only()
}
