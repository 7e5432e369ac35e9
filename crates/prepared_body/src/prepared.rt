//! Bodies that are ready.

ghost use Rattle.std.specs.Prelude.{◌≡◌, ◌↔◌, true, ◌<◌, length};
ghost use Rattle.std.specs.Arc.{arc_slice_items};
ghost use Rattle.std.specs.List.{AllByRecursion};
ghost use Rattle.std.specs.Cmp.Lexicographic.{pointwise};
ghost use Rattle.prepared_body.specs.Arrivals.{arrival_in, arrivals_in};
ghost use Rattle.prepared_body.specs.Equal.{arrival_eq, prepared_eq};

use crate::noted::{NotedSpan, SpanOrigin};
use std::marker::Model;
use std::sync::ArcSlice;
use tail_settings::{PolicySpec, same_policies};

/// A body's valid spans, ready to be posted to a tenant, with the policies that the tenant had then and the note of
/// each span for these. The policies are shared with the section, and not copied.
#[derive(Debug, Drop)]
pub struct Prepared {
    tenant: u32,
    policies: ArcSlice<PolicySpec>,
    origins: Vec<SpanOrigin>,
    spans: Vec<NotedSpan>,
    // How many spans were left out, since an id of theirs has another length or is all zeros.
    invalid: u64,
}

impl Model for Prepared {
    ghost use Rattle.std.specs.Prelude.{◌≤◌, length, map};
    ghost use Rattle.std.specs.Arc.{arc_slice_items};
    ghost use Rattle.tail_settings.specs.Policy.{policy_view};
    ghost use Rattle.prepared_body.specs.Arrivals.{arrivals_in, AreGrouped};
    ghost use Rattle.prepared_body.specs.Prepared.{PreparedData, AreReady};

    ghost Value = { PreparedData };

    ghost view = { λ p. record {
      tenant = p.tenant;
      policies = map policy_view (arc_slice_items p.policies);
      arrivals = arrivals_in p.origins.items p.spans.items;
      invalid = p.invalid;
    } };

    ghost invariant = { λ p.
        AreReady (map policy_view (arc_slice_items p.policies)) p.origins.items p.spans.items
        × (length p.origins.items ≤ length p.spans.items) × AreGrouped p.origins.items };
}

impl PartialEq for Prepared {
    ghost use Rattle.prepared_body.specs.Equal.{prepared_eq, prepared_laws};

    ghost eq = { prepared_eq };

    ghost laws = { prepared_laws };

    fn eq(&self, other: &Prepared) -> bool {
        self.is_like(other) && self.has_spans_of(other)
    }
}

/// Whether two spans of these origins are the same, with what stands round them.
fn is_same_span(
    origins: &[SpanOrigin],
    one: &NotedSpan,
    others: &[SpanOrigin],
    other: &NotedSpan,
) -> bool
    requires one { one.now.origin < length origins.now }
    requires other { other.now.origin < length others.now }
    ensures { result ≡ arrival_eq (arrival_in origins.now one.now)
        (arrival_in others.now other.now) }
{
    one.text == other.text && origins[one.origin] == others[other.origin]
}

/// Whether these are the same spans, in the same order.
fn are_same_spans(
    origins: &[SpanOrigin],
    spans: &[NotedSpan],
    others: &[SpanOrigin],
    more: &[NotedSpan],
) -> bool
    requires one { AllByRecursion (λ s. s.origin < length origins.now) spans.now }
    requires other { AllByRecursion (λ s. s.origin < length others.now) more.now }
    ensures { result ≡ pointwise arrival_eq (arrivals_in origins.now spans.now)
        (arrivals_in others.now more.now) }
{
    if spans.len() != more.len() {
        return false;
    }
    for (i, span) in spans.iter().enumerate() {
        if !is_same_span(origins, span, others, &more[i]) {
            return false;
        }
    }
    true
}

impl Prepared {
    ghost use Rattle.std.specs.Prelude.{◌≤◌, map};
    ghost use Rattle.tail_settings.specs.Policy.{policy_view};
    ghost use Rattle.prepared_body.specs.Arrivals.{arrivals_in, AreGrouped};
    ghost use Rattle.prepared_body.specs.Prepared.{AreReady};
    ghost use Rattle.prepared_body.specs.Equal.{arrival_eq, same_policies, same_tenant, same_front};

    /// These valid spans of a tenant's body with their origins, whose notes are for these policies, beside so many that
    /// were left out: `prepare` of `otlp_prepare` makes it so of a body, and who kept the parts of one has it again.
    pub fn of(
        tenant: u32,
        policies: ArcSlice<PolicySpec>,
        origins: Vec<SpanOrigin>,
        spans: Vec<NotedSpan>,
        invalid: u64,
    ) -> Prepared
        requires ready { AreReady (map policy_view (arc_slice_items policies)) origins.items
            spans.items }
        requires sparing { length origins.items ≤ length spans.items }
        requires grouped { AreGrouped origins.items }
        ensures { result ≡ record {
          tenant = tenant;
          policies = map policy_view (arc_slice_items policies);
          arrivals = arrivals_in origins.items spans.items;
          invalid = invalid;
        } }
    {
        Prepared {
            tenant,
            policies,
            origins,
            spans,
            invalid,
        }
    }

    /// The number of the tenant.
    pub fn tenant(&self) -> u32
        ensures { result ≡ self.now.tenant }
    {
        self.tenant
    }

    /// The policies that the body was prepared for, which are shared.
    pub fn policies(&self) -> &ArcSlice<PolicySpec>
        ensures { map policy_view (arc_slice_items result.now) ≡ self.now.policies }
    {
        &self.policies
    }

    /// Whether the body was prepared for these policies.
    pub fn has_policies(&self, policies: &[PolicySpec]) -> bool
        ensures { result ≡ same_policies self.now.policies (map policy_view policies.now) }
    {
        same_policies(self.policies.as_slice(), policies)
    }

    /// Whether both are for one tenant with the same policies.
    fn is_for_same(&self, other: &Prepared) -> bool
        ensures { result ≡ same_tenant self.now other.now }
    {
        self.tenant == other.tenant && self.has_policies(other.policies.as_slice())
    }

    /// The same, where as many spans were left out of both.
    fn is_like(&self, other: &Prepared) -> bool
        ensures { result ≡ same_front self.now other.now }
    {
        self.invalid == other.invalid && self.is_for_same(other)
    }

    /// Whether both have the same spans, in the same order.
    fn has_spans_of(&self, other: &Prepared) -> bool
        ensures { result ≡ pointwise arrival_eq self.now.arrivals other.now.arrivals }
    {
        are_same_spans(
            self.origins.as_slice(),
            self.spans.as_slice(),
            other.origins.as_slice(),
            other.spans.as_slice(),
        )
    }

    /// What stands round the spans, once for all spans of one scope of one resource, and the valid spans in the order
    /// of the body.
    pub fn parts(&self) -> (&[SpanOrigin], &[NotedSpan])
        ensures arrivals { arrivals_in result.0.now result.1.now ≡ self.now.arrivals }
        ensures ready { AreReady self.now.policies result.0.now result.1.now }
        ensures sparing { length result.0.now ≤ length result.1.now }
        ensures grouped { AreGrouped result.0.now }
    {
        (self.origins.as_slice(), self.spans.as_slice())
    }

    /// How many spans of the body were left out, since an id of theirs has another length or is all zeros.
    pub fn invalid(&self) -> u64
        ensures { result ≡ self.now.invalid }
    {
        self.invalid
    }
}

/// Bodies that were prepared are equal exactly where contracts see the same: a law.
pub fn equal_bodies_are_the_same(one: &Prepared, other: &Prepared)
    ensures { (prepared_eq one.now other.now ≡ true) ↔ (one.now ≡ other.now) }
{
    let _both = one.spans.len() == other.spans.len();
}
