//! Texts that stand round spans.

ghost use Rattle.std.specs.Prelude.{◌≡◌, true, IfOk, length, option_copied};
ghost use Rattle.span_pool.specs.Stored.{bytes_of, same_text};
ghost use Rattle.otlp_parts.specs.Urls.{is_url};

use std::alloc::AllocError;
use std::marker::Model;
use text_slice::TextSlice;

/// The text of a resource or a scope, or none. It takes 24 bytes, and whoever shares a text takes no more.
#[derive(Drop)]
pub struct PartText {
    text: Option<TextSlice>,
}

impl Model for PartText {
    ghost use Rattle.std.specs.Prelude.{List, ℕ, Option};

    ghost Value = { Option (List ℕ) };

    ghost view = { λ t. t.text };
}

impl PartText {
    /// This text, or none.
    pub(crate) fn of(text: Option<TextSlice>) -> PartText
        ensures { result ≡ text }
    {
        PartText { text }
    }

    /// This URL, or none where it is empty.
    pub(crate) fn of_url(url: Option<TextSlice>) -> PartText
        ensures same { bytes_of result ≡ bytes_of url }
        ensures url { is_url result ≡ true }
    {
        match url {
            Some(url) if !url.is_empty() => PartText { text: Some(url) },
            _ => PartText { text: None },
        }
    }

    /// The text, where there is one.
    pub fn as_ref(&self) -> Option<&TextSlice>
        ensures value { option_copied result ≡ self.now }
    {
        self.text.as_ref()
    }

    /// How many bytes the text has, none where it is missing.
    pub(crate) fn size(&self) -> usize
        ensures { result ≡ length (bytes_of self.now) }
    {
        match &self.text {
            Some(text) => text.len(),
            None => 0,
        }
    }

    /// Whether it is the same text, and none where that is missing.
    fn is_same(&self, other: &PartText) -> bool
        ensures { result ≡ same_text self.now other.now }
    {
        match (self.as_ref(), other.as_ref()) {
            (Some(one), Some(other)) => one == other,
            (None, None) => true,
            _ => false,
        }
    }

    /// This text once more. It takes no memory, which no contract says.
    fn shared(&self) -> Result<PartText, AllocError>
        ensures { IfOk result (λ shared. shared ≡ self.now) }
    {
        match &self.text {
            Some(text) => {
                let text = text.shared()?;
                Ok(PartText { text: Some(text) })
            }
            None => Ok(PartText { text: None }),
        }
    }

    /// This text, shared with the last one where they are the same.
    #[tactic(auto, using(crate::proofs::Same::the_same_text))]
    pub(crate) fn like(self, last: &PartText) -> Result<PartText, AllocError>
        ensures { IfOk result (λ text. text ≡ self) }
    {
        if self.is_same(last) {
            return last.shared();
        }
        Ok(self)
    }
}
