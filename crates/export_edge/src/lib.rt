//! The edge at which jobs leave: who makes turns and hands their jobs to the lane, and who takes jobs from the lane,
//! posts them to their back ends and hands in the answers.
//!
//! [`post_over`] posts a payload over a line and says what it came to: an answer, or none where the line, the answer's
//! head or its body is at fault. [`post_job`] does so over a line of its own to the address that the job's tenant is
//! said to have ([`Addresses`]), which whoever makes lines ([`Dial`]) is asked for: for [`TcpBackEnd`] a connection
//! over TCP. [`run_turner`] and [`run_sender`] are the work of one thread each, over whoever makes turns and takes
//! answers ([`JobSource`], [`AnswerSink`]) and to whatever beat ([`Beat`]); what they promise is said of their whole
//! work (`specs/Work`).
//!
//! It stands on `http_edge` and `http_line`, for posts and answers on the wire, on `job_lane`, and on `send_retry`, for
//! answers. The bytes of a post are OTLP/HTTP's; the rules of turners and senders are this project's own.
#![tactic(auto)]

ghost use Rattle.export_edge.specs.Law.{TurnsAreNoted, PostsAreNoted, AnswersAreNoted, CallsAreNoted, MomentsAreNoted};

mod addresses;
mod back_end;
mod dial;
mod posting;
mod sender;
mod tcp;
mod turner;
mod work;

pub use crate::addresses::{Address, AddressList, Addresses};
pub use crate::back_end::BackEnd;
pub use crate::dial::{Dial, DialingBackEnd, post_job};
pub use crate::posting::post_over;
pub use crate::sender::run_sender;
pub use crate::tcp::{TcpBackEnd, TcpDialer};
pub use crate::turner::run_turner;
pub use crate::work::{AnswerRefused, AnswerSink, Beat, JobSource, TurnResult};

/// A source that notes its turns has noted those that a turner is said to have made: a law over the definitions.
pub fn turns_are_noted<S: JobSource>()
    ensures { TurnsAreNoted S.turns }
{}

/// A back end that notes its posts has noted those that a sender is said to have made: a law over the definitions.
pub fn posts_are_noted<B: BackEnd>()
    ensures { PostsAreNoted B.posts }
{}

/// A sink that notes the answers that it takes has noted one to each job that a sender is said to have sent, at the
/// moment at which it was taken: a law over the definitions.
pub fn answers_are_noted<S: AnswerSink>()
    ensures { AnswersAreNoted S.takes S.refuses }
{}

/// A beat that notes its calls has noted those that a turner or a sender is said to have made of it: a law over the
/// definitions.
pub fn calls_are_noted<B: Beat>()
    ensures { CallsAreNoted B.calls }
{}

/// A beat that notes the moments that it gives has noted those at which a turner is said to have made its turns, and a
/// sender to have handed in its answers: a law over the definitions.
pub fn moments_are_noted<B: Beat>()
    ensures { MomentsAreNoted B.calls }
{}
