//! The attributes of a span and its resource, one after the other.

ghost use Rattle.std.specs.Prelude.{◌≡◌, ◌++◌};
ghost use Rattle.span_view.specs.Facts.{AreText};
ghost use Rattle.span_view.specs.Reading.{attributes_in};

use crate::value::{ValueRef, attribute_of, next_attribute};
use std::marker::Model;

/// The attributes that are still to come.
#[derive(Drop)]
pub struct Attributes<'a> {
    span: &'a [u8],
    resource: &'a [u8],
}

impl<'a> Model for Attributes<'a> {
    ghost use Rattle.std.specs.Prelude.{List, ◌++◌};
    ghost use Rattle.span_view.specs.Facts.{AttributeFact, AreText};
    ghost use Rattle.span_view.specs.Reading.{attributes_in};

    ghost Value = { List AttributeFact };

    ghost view = { λ a. attributes_in 9 a.span.now ++ attributes_in 1 a.resource.now };

    ghost invariant = { λ a. AreText (attributes_in 9 a.span.now ++ attributes_in 1 a.resource.now) };
}

impl<'a> Attributes<'a> {
    /// Those of these texts, a span's and its resource's.
    pub fn of(span: &'a [u8], resource: &'a [u8]) -> Attributes<'a>
        requires text { AreText (attributes_in 9 span.now ++ attributes_in 1 resource.now) }
        ensures { result ≡ attributes_in 9 span.now ++ attributes_in 1 resource.now }
    {
        Attributes { span, resource }
    }
}

impl<'a> Iterator for Attributes<'a> {
    type Item = (&'a str, ValueRef<'a>);

    ghost use Rattle.std.specs.Iterator.{YieldsFirstBy, item_count};
    ghost use Rattle.span_view.specs.Shown.{attribute_shown};

    ghost next_gives = { YieldsFirstBy attribute_shown (λ left. left) };

    ghost remaining = { item_count (λ left. left) };

    #[tactic(auto, using(crate::proofs::Walks::no_attributes))]
    fn next(&mut self) -> Option<(&'a str, ValueRef<'a>)> {
        if let Some((text, rest)) = next_attribute(self.span, 9) {
            self.span = rest;
            return Some(attribute_of(text));
        }
        self.span = &[];
        if let Some((text, rest)) = next_attribute(self.resource, 1) {
            self.resource = rest;
            return Some(attribute_of(text));
        }
        self.resource = &[];
        None
    }
}
