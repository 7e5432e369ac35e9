//! What is kept of a body.

ghost use Rattle.std.specs.Prelude.{◌≡◌, true};
ghost use Rattle.otlp_parts.specs.Urls.{is_url};

use crate::part_text::PartText;
use std::alloc::AllocError;
use text_slice::TextSlice;

/// The canonical texts of the valid spans of a scope, in the order of the body.
#[derive(Drop)]
pub enum SpanTexts {
    /// One, which takes no list.
    One(TextSlice),
    /// Any number.
    More(Vec<TextSlice>),
}

impl SpanTexts {
    ghost use Rattle.std.specs.Prelude.{◌==◌, length, not};
    ghost use Rattle.otlp_parts.specs.Parts.{spans_in, have_list};

    /// These texts.
    #[tactic(auto, using(crate::proofs::Few::only_one))]
    pub(crate) fn of(spans: Vec<TextSlice>) -> SpanTexts
        ensures same { spans_in result ≡ spans.items }
        ensures list { have_list result ≡ not (length spans.items == 1) }
    {
        let mut spans = spans;
        if spans.len() != 1 {
            spans.shrink_to_fit();
            return SpanTexts::More(spans);
        }
        match spans.pop() {
            Some(span) => SpanTexts::One(span),
            None => SpanTexts::More(spans),
        }
    }

    /// Whether there is none.
    pub fn is_empty(&self) -> bool
        ensures { result ≡ (length (spans_in self.now) == 0) }
    {
        match self {
            SpanTexts::One(_) => false,
            SpanTexts::More(spans) => spans.is_empty(),
        }
    }
}

/// The spans of a scope.
#[derive(Drop)]
pub struct ScopeParts {
    /// The scope's canonical text, where there is one.
    pub scope: PartText,
    /// The URL of the scope's schema in UTF-8, none where it is empty.
    pub schema_url: PartText,
    /// The canonical texts of the valid spans, in the order of the body.
    pub spans: SpanTexts,
    ghost url: { is_url schema_url ≡ true },
}

impl ScopeParts {
    ghost use Rattle.std.specs.Prelude.{IfOk};
    ghost use Rattle.otlp_parts.specs.Parts.{scope_parts_view};

    /// These parts. Each text is shared with the scope spans before them where it is the same.
    pub(crate) fn like(self, last: Option<&ScopeParts>) -> Result<ScopeParts, AllocError>
        ensures { IfOk result (λ parts. scope_parts_view parts ≡ scope_parts_view self) }
    {
        let Some(last) = last else {
            return Ok(self);
        };
        Ok(ScopeParts {
            scope: self.scope.like(&last.scope)?,
            schema_url: self.schema_url.like(&last.schema_url)?,
            spans: self.spans,
        })
    }
}

/// The scope spans of a resource, in the order of the body.
#[derive(Drop)]
pub enum ScopeList {
    /// One, which takes no list.
    One(ScopeParts),
    /// Any number.
    More(Vec<ScopeParts>),
}

impl ScopeList {
    ghost use Rattle.std.specs.Prelude.{◌==◌, IfOk, length, map, not};
    ghost use Rattle.otlp_parts.specs.Parts.{scopes_in, scope_parts_view, scopes_have_list};

    /// These scope spans.
    #[tactic(auto, using(crate::proofs::Few::only_one_made))]
    pub(crate) fn of(scopes: Vec<ScopeParts>) -> ScopeList
        ensures same { scopes_in result ≡ map scope_parts_view scopes.items }
        ensures list { scopes_have_list result ≡ not (length scopes.items == 1) }
    {
        let mut scopes = scopes;
        if scopes.len() != 1 {
            scopes.shrink_to_fit();
            return ScopeList::More(scopes);
        }
        match scopes.pop() {
            Some(scope) => ScopeList::One(scope),
            None => ScopeList::More(scopes),
        }
    }

    /// These scope spans. Where this list and the one before it are of one scope spans, each text that is the same is
    /// shared.
    fn like(self, last: &ScopeList) -> Result<ScopeList, AllocError>
        ensures { IfOk result (λ scopes. scopes_in scopes ≡ scopes_in self) }
    {
        match (self, last) {
            (ScopeList::One(scope), ScopeList::One(last)) => {
                let scope = scope.like(Some(last))?;
                Ok(ScopeList::One(scope))
            }
            (scopes, _) => Ok(scopes),
        }
    }
}

/// The spans of a resource, by scope.
#[derive(Drop)]
pub struct ResourceParts {
    /// The resource's canonical text, where there is one.
    pub resource: PartText,
    /// The URL of the resource's schema in UTF-8, none where it is empty.
    pub schema_url: PartText,
    /// In the order of the body.
    pub scopes: ScopeList,
    ghost url: { is_url schema_url ≡ true },
}

impl ResourceParts {
    ghost use Rattle.std.specs.Prelude.{IfOk};
    ghost use Rattle.otlp_parts.specs.Parts.{resource_parts_view};

    /// These parts. Each text is shared with the resource spans before them where it is the same.
    pub(crate) fn like(self, last: Option<&ResourceParts>) -> Result<ResourceParts, AllocError>
        ensures { IfOk result (λ parts. resource_parts_view parts ≡ resource_parts_view self) }
    {
        let Some(last) = last else {
            return Ok(self);
        };
        Ok(ResourceParts {
            resource: self.resource.like(&last.resource)?,
            schema_url: self.schema_url.like(&last.schema_url)?,
            scopes: self.scopes.like(&last.scopes)?,
        })
    }
}

/// The parts of a body.
#[derive(Drop)]
pub struct BodyParts {
    /// In the order of the body.
    pub resources: Vec<ResourceParts>,
    /// How many spans were left out, since an id of theirs has another length or is all zeros.
    pub invalid: u64,
    /// How many bytes of the parts are slices of the body. Where there are any the whole body is held with them, and
    /// else nothing of it.
    pub sliced: usize,
}
