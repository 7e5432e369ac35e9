//! Texts that begin with a known front.

ghost use Rattle.std.specs.Prelude.{◌≡◌, option_copied};
ghost use Rattle.service_runtime.specs.Front.{strip_front};

/// What stands behind a front, if the text begins with it.
pub fn strip_front<'t>(text: &'t [u8], front: &[u8]) -> Option<&'t [u8]>
    ensures { option_copied result ≡ strip_front front.now text.now }
{
    text.strip_prefix(front)
}
