//! Attributes and their values.

ghost use Rattle.std.specs.Prelude.{◌≡◌, ◌++◌, OnOk};
ghost use Rattle.otlp_trace.specs.Data.{KeyValueData};
ghost use Rattle.otlp_trace.specs.Text.{any_text, kind_text, array_text, list_text, key_value_text};
ghost use Rattle.otlp_trace.specs.View.{any_view, kind_view, array_view, list_view, key_value_view};

use crate::value::{AnyValue, AnyValueKind, ArrayValue, KeyValue, KeyValueList};
use crate::write::embedded::Message;
use crate::write::fields::{
    put_bytes_field, put_eight_field, put_number_field, put_some_bytes, wrap_in_field,
};
use std::alloc::AllocError;

#[cycle(put)]
fn put_any(out: &mut Vec<u8>, value: &AnyValue) -> Result<(), AllocError>
    ensures on_success { OnOk result (out.new.items ≡ out.old.items ++ any_text
        (any_view value.now)) }
{
    put_kind(out, &value.kind)?;
    out.extend_from_slice(value.unknown.as_slice())
}

/// The member of the oneof that is chosen, also at its default.
#[cycle(put)]
fn put_kind(out: &mut Vec<u8>, kind: &AnyValueKind) -> Result<(), AllocError>
    ensures on_success { OnOk result (out.new.items ≡ out.old.items ++ kind_text
        (kind_view kind.now)) }
{
    match kind {
        AnyValueKind::Unset => Ok(()),
        AnyValueKind::String(text) => put_bytes_field(out, 1, text.as_bytes()),
        AnyValueKind::Bool(b) => put_number_field(out, 2, if *b { 1 } else { 0 }),
        AnyValueKind::Int(n) => put_number_field(out, 3, n.cast_unsigned()),
        AnyValueKind::Double(bits) => put_eight_field(out, 4, bits.0),
        AnyValueKind::Array(array) => {
            let start = out.len();
            put_array(out, array)?;
            wrap_in_field(out, start, 5)
        }
        AnyValueKind::KeyValueList(list) => {
            let start = out.len();
            put_list(out, list)?;
            wrap_in_field(out, start, 6)
        }
        AnyValueKind::Bytes(bytes) => put_bytes_field(out, 7, bytes.as_slice()),
    }
}

#[cycle(put)]
fn put_array(out: &mut Vec<u8>, array: &ArrayValue) -> Result<(), AllocError>
    ensures on_success { OnOk result (out.new.items ≡ out.old.items ++ array_text
        (array_view array.now)) }
{
    'values: for value in &array.values {
        let start = out.len();
        put_any(out, value)?;
        wrap_in_field(out, start, 1)?;
    }
    out.extend_from_slice(array.unknown.as_slice())
}

#[cycle(put)]
fn put_list(out: &mut Vec<u8>, list: &KeyValueList) -> Result<(), AllocError>
    ensures on_success { OnOk result (out.new.items ≡ out.old.items ++ list_text
        (list_view list.now)) }
{
    'values: for value in &list.values {
        let start = out.len();
        put_key_value(out, value)?;
        wrap_in_field(out, start, 1)?;
    }
    out.extend_from_slice(list.unknown.as_slice())
}

#[cycle(put)]
fn put_key_value(out: &mut Vec<u8>, pair: &KeyValue) -> Result<(), AllocError>
    ensures on_success { OnOk result (out.new.items ≡ out.old.items ++ key_value_text
        (key_value_view pair.now)) }
{
    put_some_bytes(out, 1, pair.key.as_bytes())?;
    if let Some(value) = &pair.value {
        let start = out.len();
        put_any(out, value)?;
        wrap_in_field(out, start, 2)?;
    }
    out.extend_from_slice(pair.unknown.as_slice())
}

impl Message for KeyValue {
    ghost Data = { KeyValueData };

    ghost view = { key_value_view };

    ghost text = { key_value_text };

    fn put(&self, out: &mut Vec<u8>) -> Result<(), AllocError> {
        put_key_value(out, self)
    }
}
