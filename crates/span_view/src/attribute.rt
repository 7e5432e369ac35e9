//! Single attributes, borrowed from their text.

ghost use Rattle.std.specs.Prelude.{◌≡◌};
ghost use Rattle.span_view.specs.Facts.{IsAttributeText};
ghost use Rattle.span_view.specs.Reading.{attribute_in};
ghost use Rattle.span_view.specs.Shown.{value_shown};

use crate::fields::bytes;
use crate::value::{ValueRef, value_of};
use std::marker::Model;
use std::str;

/// An attribute by its text. Its key and its value are looked for when they are asked for.
#[derive(Drop)]
pub struct AttributeRef<'a> {
    text: &'a [u8],
}

impl<'a> Model for AttributeRef<'a> {
    ghost use Rattle.span_view.specs.Facts.{AttributeFact, IsAttributeText};
    ghost use Rattle.span_view.specs.Reading.{attribute_in};

    ghost Value = { AttributeFact };

    ghost view = { λ a. attribute_in a.text.now };

    ghost invariant = { λ a. IsAttributeText (attribute_in a.text.now) };
}

impl<'a> AttributeRef<'a> {
    /// The attribute of this text.
    #[inline(always)]
    pub(crate) fn of(text: &'a [u8]) -> AttributeRef<'a>
        requires text { IsAttributeText (attribute_in text.now) }
        ensures { result ≡ attribute_in text.now }
    {
        AttributeRef { text }
    }

    /// Its key.
    #[inline(always)]
    pub fn key(&self) -> &'a str
        ensures { result.now ≡ self.now.key }
    {
        unsafe { str::from_utf8_unchecked(bytes(self.text, 1)) }
    }

    /// Its value.
    pub fn value(&self) -> ValueRef<'a>
        ensures { value_shown result ≡ self.now.value }
    {
        value_of(bytes(self.text, 2))
    }
}
