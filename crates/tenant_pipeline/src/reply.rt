//! The replies to posts.

ghost use Rattle.std.specs.Prelude.{◌≡◌, ◌+◌, ◌<◌, ◌^◌, IfOk};
ghost use Rattle.tenant_rules.specs.Answers.{refused, success_text};

use otlp_trace::{
    ExportTracePartialSuccess, ExportTraceServiceResponse, Octets, write_response, write_status,
};
use std::alloc::{AllocError, Global};
use tenant_rules::Reply;

/// The reply with this status code that refuses a post: its content is a Status (`google.rpc.Status`) with this message
/// alone.
pub(crate) fn refusal(alloc: Global, status: u16, message: &str) -> Result<Reply, AllocError>
    ensures { IfOk result (λ reply. reply ≡ refused status message.now) }
{
    let mut body = Vec::new(alloc);
    write_status(alloc, &mut body, message)?;
    Ok(Reply {
        status,
        body: Octets::from_vec(body),
    })
}

/// The reply to a post that is taken but for so many spans: those that aren't valid, and those for which there was no
/// room.
pub(crate) fn success(alloc: Global, invalid: u64, over_budget: u64) -> Result<Reply, AllocError>
    requires { invalid + over_budget < 2 ^ 63 }
    ensures { IfOk result (λ reply. reply ≡ record
        { status = 200; body = success_text invalid over_budget }) }
{
    if invalid == 0 && over_budget == 0 {
        return Ok(Reply {
            status: 200,
            body: Octets::new(alloc),
        });
    }
    let message = format!(in alloc; "rejected: {invalid} invalid, {over_budget} over budget")?;
    let response = ExportTraceServiceResponse {
        partial_success: Some(ExportTracePartialSuccess {
            rejected_spans: (invalid + over_budget) as i64,
            error_message: message,
        }),
    };
    let mut body = Vec::new(alloc);
    write_response(alloc, &mut body, &response)?;
    Ok(Reply {
        status: 200,
        body: Octets::from_vec(body),
    })
}
