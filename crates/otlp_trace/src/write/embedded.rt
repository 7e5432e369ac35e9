//! Messages as fields of others.

ghost use Rattle.std.specs.Prelude.{◌≡◌, ◌^◌, ◌<◌, ◌++◌, ℕ, List, map, option_map, OnOk};
ghost use Rattle.otlp_trace.specs.Text.{bytes_field, embedded, repeated};

use crate::write::fields::wrap_in_field;
use std::alloc::AllocError;

/// A message, which appends its fields.
pub trait Message {
    ghost Data: { Type 0 };

    ghost view: { Self → Data };

    ghost text: { Data → List ℕ };

    fn put(&self, out: &mut Vec<u8>) -> Result<(), AllocError>
        ensures on_success { OnOk result (out.new.items ≡ out.old.items ++ text (view self.now)) };
}

/// An embedded message, an empty one too.
fn put_message<M: Message>(out: &mut Vec<u8>, number: u32, message: &M) -> Result<(), AllocError>
    requires number_not_zero { 0 < number }
    requires fits { number < 2 ^ 29 }
    ensures on_success { OnOk result (out.new.items ≡ out.old.items
        ++ bytes_field number (M.text (M.view message.now))) }
{
    let start = out.len();
    message.put(out)?;
    wrap_in_field(out, start, number)
}

/// An embedded message, where there is one.
pub fn put_embedded<M: Message>(
    out: &mut Vec<u8>,
    number: u32,
    message: &Option<M>,
) -> Result<(), AllocError>
    requires number_not_zero { 0 < number }
    requires fits { number < 2 ^ 29 }
    ensures on_success { OnOk result (out.new.items
        ≡ out.old.items ++ embedded number (option_map M.text (option_map M.view message.now))) }
{
    match message {
        None => Ok(()),
        Some(message) => put_message(out, number, message),
    }
}

/// A repeated field.
#[tactic(auto, using(crate::proofs::Dropped::repeated_next))]
pub fn put_each<M: Message>(
    out: &mut Vec<u8>,
    number: u32,
    messages: &[M],
) -> Result<(), AllocError>
    requires number_not_zero { 0 < number }
    requires fits { number < 2 ^ 29 }
    ensures on_success { OnOk result (out.new.items ≡ out.old.items
        ++ repeated number M.text (map M.view messages.now)) }
{
    'messages: for message in messages {
        put_message(out, number, message)?;
    }
    Ok(())
}
