//! What the fields of a span, or of a resource, tell policies together.

ghost use Rattle.std.specs.Prelude.{◌≡◌, [], map};
ghost use Rattle.span_view.specs.Facts.{AreText};
ghost use Rattle.span_view.specs.Reading.{facts_of};
ghost use Rattle.tail_settings.specs.Policy.{policy_view};
ghost use Rattle.tail_policy.specs.Note.{leaves_in, bits_of, attributes_meet};
ghost use Rattle.tail_policy.specs.Marks.{IsReady};
ghost use Rattle.tail_policy.specs.Tally.{tally_of};

use crate::bits::attribute_bits;
use span_view::{SpanField, SpanFields, SpanRef};
use tail_settings::PolicySpec;

/// What fields tell policies together.
#[derive(Clone, Copy)]
pub struct SpanFacts {
    /// One bit a policy that holds no other, the first one's lowest: whether an attribute meets it.
    pub met: u64,
    /// Nanoseconds since 1970.
    pub start: u64,
    /// Nanoseconds since 1970.
    pub end: u64,
    /// The code of the status.
    pub status: i32,
}

/// What these fields tell policies, in one walk.
pub fn tally(policies: &[PolicySpec], marks: &[bool], fields: SpanFields<'_>) -> SpanFacts
    requires ready { IsReady (map policy_view policies.now) marks.now }
    ensures { result ≡ tally_of (map policy_view policies.now) fields.entry }
{
    let mut met = 0;
    let mut start = None;
    let mut end = None;
    let mut status = None;
    for field in fields {
        match field {
            SpanField::Start(time) => start = Some(start.unwrap_or(time)),
            SpanField::End(time) => end = Some(end.unwrap_or(time)),
            SpanField::Status(code) => status = Some(status.unwrap_or(code)),
            SpanField::Attribute(pair) => met |= attribute_bits(policies, marks, &pair),
        }
    }
    SpanFacts {
        met,
        start: start.unwrap_or(0),
        end: end.unwrap_or(0),
        status: status.unwrap_or(0),
    }
}

/// One bit a policy that holds no other, whether an attribute of the resource meets it.
pub fn resource_bits(policies: &[PolicySpec], marks: &[bool], resource: &[u8]) -> u64
    requires ready { IsReady (map policy_view policies.now) marks.now }
    requires text { AreText (facts_of [] resource.now).attributes }
    ensures { result
        ≡ bits_of (attributes_meet (facts_of [] resource.now).attributes)
        (leaves_in (map policy_view policies.now)) }
{
    let SpanFacts { met, .. } = tally(policies, marks, SpanRef::of(&[], resource).fields());
    met
}
