//! What a client is answered.

/// How much of a request was refused, and why.
#[derive(Debug, Drop)]
pub struct ExportTracePartialSuccess {
    /// How many spans were refused; 0 with a message is a warning.
    pub rejected_spans: i64,
    /// Why, in words for people; empty where nothing is to be said.
    pub error_message: String,
}

/// The reply to a request that was taken, at least in part.
#[derive(Debug, Drop)]
pub struct ExportTraceServiceResponse {
    /// None where all was taken and nothing is to be said.
    pub partial_success: Option<ExportTracePartialSuccess>,
}
