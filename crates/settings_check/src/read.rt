//! Reading a document's tables. A key that isn't there, or has something else, reads as nothing.

ghost use Rattle.std.specs.Prelude.{◌≡◌, IfOk, option_map, option_copied};
ghost use Rattle.toml.specs.Data.{get_member};
ghost use Rattle.toml.specs.Parse.{parse_document};
ghost use Rattle.toml.specs.View.{view, table_view, items_view};
ghost use Rattle.tail_settings.specs.Keys.{keys_of};
ghost use Rattle.settings_check.specs.Unknown.{table_in, items_in, text_in};

use std::alloc::{AllocError, Global};
use toml::{Table, Value};

/// The document that a text is, if it is one; otherwise the reader's words on where it isn't.
pub fn document(alloc: Global, text: &str) -> Result<(Option<Table>, String), AllocError>
    ensures { IfOk result (λ found. option_map table_view found.0 ≡ parse_document text.now) }
{
    match toml::table_from_str(alloc, text) {
        Ok(document) => Ok((Some(document), String::new(alloc))),
        Err(error) if error.is_memory() => Err(AllocError),
        Err(error) => Ok((None, format!(in alloc; "{error}")?)),
    }
}

/// The value at a key.
fn value<'a>(table: Option<&'a Table>, key: &str) -> Option<&'a Value>
    ensures { option_map (λ v. view v.now) result ≡ get_member key.now (keys_of table.entry) }
{
    match table {
        Some(table) => table.get(key),
        None => None,
    }
}

/// The table at a key.
pub fn table<'a>(table: Option<&'a Table>, key: &str) -> Option<&'a Table>
    ensures { keys_of result ≡ table_in key.now (keys_of table.entry) }
{
    match value(table, key) {
        Some(value) => value.as_table(),
        None => None,
    }
}

/// The members of the array at a key.
pub fn items<'a>(table: Option<&'a Table>, key: &str) -> &'a [Value]
    ensures { items_view result.now ≡ items_in key.now (keys_of table.entry) }
{
    match value(table, key) {
        Some(value) => match value.as_array() {
            Some(values) => values.as_slice(),
            None => &[],
        },
        None => &[],
    }
}

/// The text at a key.
pub fn text<'a>(table: Option<&'a Table>, key: &str) -> Option<&'a str>
    ensures { option_copied result ≡ text_in key.now (keys_of table.entry) }
{
    match value(table, key) {
        Some(value) => value.as_str(),
        None => None,
    }
}
