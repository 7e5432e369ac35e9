//! The keys of a table that may be missing: kinds, ranges and defaults.

ghost use Rattle.std.specs.Prelude.{◌≡◌, ◌<◌, ◌≤◌, option_map, IfOk, IfErr, length};
ghost use Rattle.toml.specs.Data.{get_member};
ghost use Rattle.toml.specs.View.{view, items_view};
ghost use Rattle.toml.specs.Data.{as_table, as_str};
ghost use Rattle.tail_settings.specs.Fault.{Tells, IsOfDocument};
ghost use Rattle.tail_settings.specs.Keys.{keys_of, required, IsFrom, in_range, number_at, integer_at, required_number_at, text_at, text_or_at, table_at, are_all, tables_at, tables_in, texts_at, texts_in, some_tables_at, some_texts_at};

use crate::fault::SettingsFault;
use toml::{Table, Value};

/// The value at a key. A missing table has none.
fn get<'a>(table: Option<&'a Table>, key: &str) -> Option<&'a Value>
    ensures { option_map (λ v. view v.now) result ≡ get_member key.now (keys_of table.entry) }
{
    match table {
        Some(table) => table.get(key),
        None => None,
    }
}

/// The value at a key that has to be there.
fn value<'a>(table: Option<&'a Table>, key: &'static str) -> Result<&'a Value, SettingsFault>
    ensures meaning { Tells (λ v. view v.now) result
        (required key.now (get_member key.now (keys_of table.entry))) }
    ensures no_memory { IfErr result IsOfDocument }
{
    match get(table, key) {
        Some(value) => Ok(value),
        None => Err(SettingsFault::MissingKey(key)),
    }
}

/// A key's number, which has to lie from `low` to `high`.
fn in_range(key: &'static str, low: u64, high: u64, number: i64) -> Result<u64, SettingsFault>
    ensures meaning { Tells (λ n. n) result (in_range key.now low high number) }
    ensures range { IfOk result (λ n. IsFrom low high n) }
    ensures no_memory { IfErr result IsOfDocument }
{
    match u64::try_from(number) {
        Ok(number) if low <= number && number <= high => Ok(number),
        _ => Err(SettingsFault::OutOfRange(key)),
    }
}

/// The whole number at a key, from `low` to `high`, or the default.
#[tactic(auto, unfolding(crate::specs::Keys::number_at))]
pub fn number(
    table: Option<&Table>,
    key: &'static str,
    low: u64,
    high: u64,
    default: u64,
) -> Result<u64, SettingsFault>
    requires { IsFrom low high default }
    ensures meaning { Tells (λ n. n) result
        (number_at key.now low high default (keys_of table.entry)) }
    ensures range { IfOk result (λ n. IsFrom low high n) }
    ensures no_memory { IfErr result IsOfDocument }
{
    let Some(value) = get(table, key) else {
        return Ok(default);
    };
    match value.as_integer() {
        Some(number) => in_range(key, low, high, number),
        None => Err(SettingsFault::WrongKind(key)),
    }
}

/// The whole number at a key that has to be there, of either sign.
#[tactic(auto, using(crate::proofs::Told::tells_more), unfolding(crate::specs::Keys::integer_at))]
pub fn integer(table: Option<&Table>, key: &'static str) -> Result<i64, SettingsFault>
    ensures meaning { Tells (λ z. z) result (integer_at key.now (keys_of table.entry)) }
    ensures no_memory { IfErr result IsOfDocument }
{
    match value(table, key)?.as_integer() {
        Some(number) => Ok(number),
        None => Err(SettingsFault::WrongKind(key)),
    }
}

/// The whole number at a key that has to be there, from `low` to `high`.
#[tactic(auto, using(crate::proofs::Told::tells_more), unfolding(crate::specs::Keys::required_number_at))]
pub fn required_number(
    table: Option<&Table>,
    key: &'static str,
    low: u64,
    high: u64,
) -> Result<u64, SettingsFault>
    ensures meaning { Tells (λ n. n) result
        (required_number_at key.now low high (keys_of table.entry)) }
    ensures no_memory { IfErr result IsOfDocument }
{
    let number = integer(table, key)?;
    in_range(key, low, high, number)
}

/// The text at a key that has to be there.
#[tactic(auto, using(crate::proofs::Told::tells_more), unfolding(crate::specs::Keys::text_at))]
pub fn text<'a>(table: Option<&'a Table>, key: &'static str) -> Result<&'a str, SettingsFault>
    ensures meaning { Tells (λ s. s.now) result (text_at key.now (keys_of table.entry)) }
    ensures no_memory { IfErr result IsOfDocument }
{
    match value(table, key)?.as_str() {
        Some(text) => Ok(text),
        None => Err(SettingsFault::WrongKind(key)),
    }
}

/// The text at a key, or the default.
#[tactic(auto, unfolding(crate::specs::Keys::text_or_at))]
pub fn text_or<'a>(
    table: Option<&'a Table>,
    key: &'static str,
    default: &'a str,
) -> Result<&'a str, SettingsFault>
    ensures meaning { Tells (λ s. s.now) result
        (text_or_at key.now default.now (keys_of table.entry)) }
    ensures no_memory { IfErr result IsOfDocument }
{
    let Some(value) = get(table, key) else {
        return Ok(default);
    };
    match value.as_str() {
        Some(text) => Ok(text),
        None => Err(SettingsFault::WrongKind(key)),
    }
}

/// The table at a key.
#[tactic(auto, unfolding(crate::specs::Keys::table_at))]
pub fn table<'a>(
    table: Option<&'a Table>,
    key: &'static str,
) -> Result<Option<&'a Table>, SettingsFault>
    ensures meaning { Tells keys_of result (table_at key.now (keys_of table.entry)) }
    ensures no_memory { IfErr result IsOfDocument }
{
    let Some(value) = get(table, key) else {
        return Ok(None);
    };
    match value.as_table() {
        Some(table) => Ok(Some(table)),
        None => Err(SettingsFault::WrongKind(key)),
    }
}

/// Whether all members of an array are tables.
fn are_all_tables(values: &[Value]) -> bool
    ensures { result ≡ are_all as_table (items_view values.now) }
{
    for value in values {
        if value.as_table().is_none() {
            return false;
        }
    }
    true
}

/// The array of tables at a key that has to be there.
#[tactic(auto, using(crate::proofs::Told::tells_more), unfolding(crate::specs::Keys::tables_at))]
pub fn tables<'a>(table: Option<&'a Table>, key: &'static str) -> Result<&'a [Value], SettingsFault>
    ensures meaning { Tells (λ v. tables_in (items_view v.now)) result
        (tables_at key.now (keys_of table.entry)) }
    ensures no_memory { IfErr result IsOfDocument }
{
    match value(table, key)?.as_array() {
        Some(values) if are_all_tables(values) => Ok(values.as_slice()),
        _ => Err(SettingsFault::WrongKind(key)),
    }
}

/// Whether all members of an array are texts.
fn are_all_texts(values: &[Value]) -> bool
    ensures { result ≡ are_all as_str (items_view values.now) }
{
    for value in values {
        if value.as_str().is_none() {
            return false;
        }
    }
    true
}

/// The array of texts at a key that has to be there.
#[tactic(auto, using(crate::proofs::Told::tells_more), unfolding(crate::specs::Keys::texts_at))]
pub fn texts<'a>(table: Option<&'a Table>, key: &'static str) -> Result<&'a [Value], SettingsFault>
    ensures meaning { Tells (λ v. texts_in (items_view v.now)) result
        (texts_at key.now (keys_of table.entry)) }
    ensures no_memory { IfErr result IsOfDocument }
{
    match value(table, key)?.as_array() {
        Some(values) if are_all_texts(values) => Ok(values.as_slice()),
        _ => Err(SettingsFault::WrongKind(key)),
    }
}

/// The tables of an array that has to be there and isn't empty.
#[tactic(auto, using(crate::proofs::Told::tells_more), unfolding(crate::specs::Keys::some_tables_at))]
pub fn some_tables<'a>(
    table: Option<&'a Table>,
    key: &'static str,
) -> Result<&'a [Value], SettingsFault>
    ensures meaning { Tells (λ v. tables_in (items_view v.now)) result
        (some_tables_at key.now (keys_of table.entry)) }
    ensures not_empty { IfOk result (λ v. 0 < length v.now) }
    ensures no_memory { IfErr result IsOfDocument }
{
    let values = tables(table, key)?;
    if values.is_empty() {
        return Err(SettingsFault::OutOfRange(key));
    }
    Ok(values)
}

/// The texts of an array that has to be there and isn't empty.
#[tactic(auto, using(crate::proofs::Told::tells_more), unfolding(crate::specs::Keys::some_texts_at))]
pub fn some_texts<'a>(
    table: Option<&'a Table>,
    key: &'static str,
) -> Result<&'a [Value], SettingsFault>
    ensures meaning { Tells (λ v. texts_in (items_view v.now)) result
        (some_texts_at key.now (keys_of table.entry)) }
    ensures not_empty { IfOk result (λ v. 0 < length v.now) }
    ensures no_memory { IfErr result IsOfDocument }
{
    let values = texts(table, key)?;
    if values.is_empty() {
        return Err(SettingsFault::OutOfRange(key));
    }
    Ok(values)
}
