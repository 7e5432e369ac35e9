//! Puts spans that leave together into batches.
//!
//! Groups of spans come one after the other. Each span waits until enough of them are pending, or long enough: then a
//! batch of the oldest is cut. A [`SpanBatcher`] holds what is pending of one tenant, and gives exactly the batches
//! that `specs/Batches` says of the list of all groups that came, at the moments that it says. Spans are held by key;
//! what is proved of batches holds of spans of any type. Moments and timeouts are milliseconds, sizes are spans.
//!
//! What a batch is sent as, a [`BatchText`], is the canonical text of an OTLP request in which neighbours of one
//! resource, and in it of one scope, stand together (`specs/ExportText`); that it is the text of such a request, and
//! read as such, is a law ([`batches_are_requests`]). It is put together from texts: each span has its own, and those
//! that spans share are named by keys and kept in a pool, so neighbours are most often compared by their keys alone.
//! How many bytes it has is known before it is written.
//!
//! It stands on `text_pool`, `span_pool` and `text_slice`, on `pb_wire`, `otlp_trace` and `otlp_read` for requests and
//! their text, and on the library's `bytes`. The rules are those of the OpenTelemetry Collector's batch processor
//! (`timeout`, `send_batch_size`, `send_batch_max_size`) and of OTLP 1.x.
#![tactic(auto)]

ghost use Rattle.std.specs.Prelude.{ℕ};
ghost use Rattle.span_batcher.specs.Law.{Continues, HoldAll};
ghost use Rattle.span_batcher.specs.State.{WaitsOn, StaysDrained};
ghost use Rattle.span_batcher.specs.Timers.{Passes, AllCome};

mod batch;
mod batch_text;
mod batcher;
mod block;
mod encode;
mod mark;
mod planned;
mod request;
mod size;

pub use batch::Batch;
pub use batch_text::BatchText;
pub use batcher::SpanBatcher;
pub use mark::PendingMark;
pub use planned::Planned;
pub use request::batches_are_requests;

/// What comes later only adds batches: those of what was left with what came.
pub fn continues()
    ensures { Continues ℕ }
{}

/// No span is lost or doubled: what all batches hold, and behind it what they leave, are the spans of all groups, in
/// order.
pub fn batches_hold_all()
    ensures { HoldAll ℕ }
{}

/// Before the timer runs out nothing more forms.
pub fn waits_on()
    ensures { WaitsOn ℕ }
{}

/// After a drain nothing more forms.
pub fn stays_drained()
    ensures { StaysDrained ℕ }
{}

/// As time goes on the timer may run out, once.
pub fn passes()
    ensures { Passes ℕ }
{}

/// Groups come one after the other, the timer running out before them where it is due.
pub fn all_come()
    ensures { AllCome ℕ }
{}
