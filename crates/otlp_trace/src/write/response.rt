//! Replies.

ghost use Rattle.otlp_trace.specs.Data.{PartialSuccessData, ResponseData};
ghost use Rattle.otlp_trace.specs.Text.{partial_success_text, response_text};
ghost use Rattle.otlp_trace.specs.View.{partial_success_view, response_view};

use crate::response::{ExportTracePartialSuccess, ExportTraceServiceResponse};
use crate::write::embedded::{Message, put_embedded};
use crate::write::fields::{put_some_bytes, put_some_signed};
use std::alloc::AllocError;

impl Message for ExportTracePartialSuccess {
    ghost Data = { PartialSuccessData };

    ghost view = { partial_success_view };

    ghost text = { partial_success_text };

    fn put(&self, out: &mut Vec<u8>) -> Result<(), AllocError> {
        put_some_signed(out, 1, self.rejected_spans)?;
        put_some_bytes(out, 2, self.error_message.as_bytes())
    }
}

impl Message for ExportTraceServiceResponse {
    ghost Data = { ResponseData };

    ghost view = { response_view };

    ghost text = { response_text };

    fn put(&self, out: &mut Vec<u8>) -> Result<(), AllocError> {
        put_embedded(out, 1, &self.partial_success)
    }
}
