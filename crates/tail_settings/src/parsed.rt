//! A document, parsed.

ghost use Rattle.std.specs.Prelude.{◌≡◌, ℕ, List, Some};
ghost use Rattle.toml.specs.Parse.{parse_document};
ghost use Rattle.toml.specs.View.{table_view};

use crate::fault::SettingsFault;
use std::alloc::Global;
use toml::Table;

/// A document of TOML, parsed. None of its keys was looked at.
#[derive(Drop)]
pub struct Document {
    pub(crate) table: Table,
    // It is that of some text.
    pub ghost of_text: { ∥ ((text : List ℕ) × (parse_document text ≡ Some (table_view table))) ∥₁ },
}

impl Document {
    ghost use Rattle.tail_settings.specs.Fault.{Tells};
    ghost use Rattle.tail_settings.specs.Settings.{document_in, document_view};

    /// Parses a text. Of all that is done with one this takes by far the longest, and it needs no settings.
    pub fn parse(alloc: Global, text: &str) -> Result<Document, SettingsFault>
        // The text's document exactly, or that it is none; refused memory says nothing of it.
        ensures { Tells document_view result (document_in (parse_document text.now)) }
    {
        match toml::table_from_str(alloc, text) {
            Ok(table) => Ok(Document { table }),
            Err(error) if error.is_memory() => Err(SettingsFault::OutOfMemory),
            Err(_) => Err(SettingsFault::NotToml),
        }
    }
}
