//! Texts that the next body may have again.

use prepared_body::SpanOrigin;
use std::alloc::Global;

/// The longest text that is remembered, in bytes. Those of the resources and scopes of most senders are shorter.
const LONGEST: usize = 4_096;

/// What stood round the first spans of the latest body that had such texts, none of them too long, for who prepares one
/// body after another: the bodies of one sender have the same resource and scope again and again. The texts are copies,
/// of at most 4,096 bytes each, so that no body stays for them.
#[derive(Drop)]
pub struct RecentTexts {
    first: Option<SpanOrigin>,
}

impl RecentTexts {
    /// None so far.
    pub fn new() -> RecentTexts {
        RecentTexts { first: None }
    }

    /// What is remembered.
    pub(crate) fn first(&self) -> Option<&SpanOrigin> {
        self.first.as_ref()
    }

    /// Remembers these texts, if none of them is too long. Where there are none, or memory is refused, what was
    /// remembered stays.
    pub(crate) fn remember(&mut self, alloc: Global, first: Option<&SpanOrigin>) {
        let Some(first) = first else {
            return;
        };
        if self.has(first) || !first.is_within(LONGEST) {
            return;
        }
        if let Ok(copy) = first.copied(alloc) {
            self.first = Some(copy);
        }
    }

    /// Whether these texts are remembered.
    fn has(&self, first: &SpanOrigin) -> bool {
        match &self.first {
            Some(remembered) => remembered == first,
            None => false,
        }
    }
}
