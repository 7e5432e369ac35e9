//! Replies, read without memory of their own.

ghost use Rattle.std.specs.Prelude.{◌≡◌, ◌≢◌, ◌≤◌, ◌↔◌, ℕ, List, Ok, Err, IfOk, IfErr, IsOkAnd};
ghost use Rattle.pb_wire.specs.Grammar.{entry};
ghost use Rattle.otlp_trace.specs.Data.{PartialSuccessData, ResponseData};
ghost use Rattle.otlp_read.specs.declared.fault.ReadFault.{ReadFault};
ghost use Rattle.otlp_read.specs.Fault.{Gives};
ghost use Rattle.otlp_read.specs.Inside.{ReadsByFields};
ghost use Rattle.otlp_read.specs.Reply.{partial_view, reply_view};
ghost use Rattle.otlp_read.specs.Response.{partial_success_step, response_step, response_value_of, IsResponse, IsResponseFault};
ghost use Rattle.otlp_read.specs.Walk.{Step, MergesLists, read_with};

use crate::fault::ReadFault;
use crate::leaf::borrowed_string;
use crate::message::LEVELS;
use pb_wire::{Field, Value, next_field};

/// How much of a request was refused, and why.
#[derive(Clone, Copy, Debug, PartialEq, Eq)]
pub struct Partial<'a> {
    /// How many spans were refused.
    pub rejected_spans: i64,
    /// For a human; it stands in the body that was read.
    pub error_message: &'a str,
}

/// A message that takes one field after the other, and borrows what it keeps.
trait Borrowed<'a>: Copy {
    ghost Data: { Type 0 };

    ghost view: { Self → Data };

    ghost step: { ℕ → Step Data };

    /// The message after one more field. Messages in the field have room for so many levels.
    fn field(self, field: Field<'a>, room: u32) -> Result<Self, ReadFault>
        requires room { room ≤ 100 }
        ensures exact { (spelled : List ℕ) →
            Gives view result (step room (view self) (entry field.entry) spelled) }
        ensures memory { IfErr result (λ fault. fault ≢ ReadFault.OutOfMemory) };
}

impl<'a> Borrowed<'a> for Partial<'a> {
    ghost Data = { PartialSuccessData };

    ghost view = { partial_view };

    ghost step = { partial_success_step };

    fn field(self, field: Field<'a>, _room: u32) -> Result<Partial<'a>, ReadFault> {
        let mut partial = self;
        match (field.number, field.value) {
            (1, Value::Varint(n)) => partial.rejected_spans = n.cast_signed(),
            (2, Value::Bytes(bytes)) => partial.error_message = borrowed_string(bytes)?,
            _ => {}
        }
        Ok(partial)
    }
}

impl<'a> Borrowed<'a> for Option<Partial<'a>> {
    ghost Data = { ResponseData };

    ghost view = { reply_view };

    ghost step = { response_step };

    fn field(self, field: Field<'a>, room: u32) -> Result<Option<Partial<'a>>, ReadFault> {
        match (field.number, field.value) {
            (1, Value::Bytes(bytes)) => {
                let start = match self {
                    Some(partial) => partial,
                    None => Partial {
                        rejected_spans: 0,
                        error_message: "",
                    },
                };
                Ok(Some(lent(start, bytes, room)?))
            }
            _ => Ok(self),
        }
    }
}

/// Goes on reading a message, where there is room for so many levels, its own among them.
fn lent<'a, M: Borrowed<'a>>(before: M, bytes: &'a [u8], room: u32) -> Result<M, ReadFault>
    requires room { room ≤ 101 }
    ensures exact { Gives M.view result (read_with M.step room (M.view before) bytes.now) }
    ensures memory { IfErr result (λ fault. fault ≢ ReadFault.OutOfMemory) }
{
    if room == 0 {
        return Err(ReadFault::TooDeep);
    }
    let mut value = before;
    let mut left = bytes;
    'fields: while let Some((field, rest)) = next_field(left, 101 - room)? {
        value = value.field(field, room - 1)?;
        left = rest;
    }
    Ok(value)
}

/// The partial success of a reply's body (`ExportTraceServiceResponse` of OTLP), or none where all spans were taken. It
/// takes no memory.
pub fn read_response(bytes: &[u8]) -> Result<Option<Partial<'_>>, ReadFault>
    // What is read is the value of the body.
    ensures value { IfOk result (λ partial. IsResponse bytes.now (reply_view partial)) }

    // A body with a value is read.
    ensures only { (v : ResponseData) → IsResponse bytes.now v
        → IsOkAnd result (λ partial. reply_view partial ≡ v) }

    // A fault stands in the body.
    ensures fault { IfErr result (λ fault. IsResponseFault bytes.now fault) }

    // Memory never runs out.
    ensures memory { IfErr result (λ fault. fault ≢ ReadFault.OutOfMemory) }
{
    lent(None, bytes, LEVELS)
}

/// Each reply's body has a value or a fault that stands in it, and none has both. What the fields of a body make is
/// what the fields of its first part make, and then those of the other. A partial success is read by the same rules,
/// one level deeper.
pub fn responses_or_faults()
    ensures apart { (bytes : List ℕ) (v : ResponseData) (fault : ReadFault) →
        IsResponseFault bytes fault → IsResponse bytes v → ⊥ }
    ensures exact { (bytes : List ℕ) (v : ResponseData)
        → (response_value_of bytes ≡ Ok v) ↔ IsResponse bytes v }
    ensures fault { (bytes : List ℕ) (fault : ReadFault) →
        response_value_of bytes ≡ Err fault → IsResponseFault bytes fault }
    ensures merge { MergesLists (response_step 100) }
    ensures partial_success { ReadsByFields partial_success_step (read_with partial_success_step) }
{}
