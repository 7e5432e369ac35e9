//! What the service's threads work with beside the shards: how they tell one another of its course, how they rest and
//! what bounds them, clients' connections, and the input, the output and the admin port's desk.
//!
//! A thread goes by a beat ([`ServiceBeat`]), and all have one set of signs ([`Signals`]): who may go on, that memory
//! is short, how much may be under way, and what was counted. [`Teller`] says in these what a thread's calls came to. A
//! client comes in at an [`Entrance`] and is read through a [`Visit`], one after another ([`receive_all`]). Lines come
//! from an input ([`next_line`]), which is a desk where there is an admin port ([`AdminDesk`]), and what is written to
//! the output is written whole, or lost and counted ([`write_text`]). A figure that Linux tells of the process is read
//! out of its text ([`number_behind`]).
//!
//! It calls no shard, of which it knows the number alone, and knows nothing of tenants' settings or of what becomes of
//! a message. It stands on `export_edge` and `job_lane` for beats and jobs, on `http_edge`, `http_line`, `http1` and
//! `httparse` for messages and connections, on `admin_pages` for what figures are and how an answer is spelled, and on
//! `send_retry` for answers. The rules are this project's own, but for those of HTTP that `specs/` name.
#![tactic(auto)]

ghost use Rattle.service_runtime.specs.BodyMemory.{CountsCoverBodies};
ghost use Rattle.service_runtime.specs.LastAnswers.{AreToldAsNoted, IsNothingTold};

mod admin_port;
mod arrival;
mod beat;
mod body_memory;
mod counted;
mod course;
mod desk;
mod documents;
mod entrance;
mod front;
mod gates;
mod input;
mod large_bodies;
mod last_answers;
mod lingering;
mod memory;
pub mod notices;
mod output;
mod pace;
mod patient;
mod proc_text;
mod receiving;
mod reserve;
mod rest;
mod tally;
mod teller;
mod token;
mod visit;

pub use crate::admin_port::{ADMINS, AdminEntrance, AdminPort, admin_entrance_of};
pub use crate::arrival::all_arrive;
pub use crate::beat::{ServiceBeat, Signals};
pub use crate::body_memory::{BodyClaim, BodyMemory};
pub use crate::counted::Counted;
pub use crate::course::{Observer, Stage};
pub use crate::desk::{AdminDesk, Asked, DeskInput, DeskOutput};
pub use crate::documents::{DeskDocuments, Documents};
pub use crate::entrance::{Entrance, wake_at_last};
pub use crate::gates::Gates;
pub use crate::input::{Line, next_line};
pub use crate::large_bodies::LargeBodies;
pub use crate::last_answers::LastAnswers;
pub use crate::lingering::{linger, refuse_overrun};
pub use crate::memory::resident_bytes;
pub use crate::output::write_text;
pub use crate::pace::{Paces, ShardPace};
pub use crate::patient::PatientBackEnd;
pub use crate::proc_text::number_behind;
pub use crate::receiving::{Reception, receive_all};
pub use crate::reserve::Reserve;
pub use crate::tally::Tally;
pub use crate::teller::Teller;
pub use crate::token::is_let_in;
pub use crate::visit::{Client, Patience, Visit};

/// No body that is taken has more bytes than count for it while it is on its way: a law over the definitions of two
/// crates.
pub fn counts_cover_bodies()
    ensures { CountsCoverBodies }
{}

/// What is told of a tenant's back end is what was noted of this tenant's answer, but that there is no room for moments
/// behind the first two years: of an answer of another tenant, at the same place, nothing is told. A law over the
/// definitions.
pub fn answers_are_told_as_noted()
    ensures noted { AreToldAsNoted }
    ensures nothing { IsNothingTold }
{}
