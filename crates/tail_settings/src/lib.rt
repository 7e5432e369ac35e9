//! The settings of a collector that many tenants share, read from a TOML document.
//!
//! [`load`] gives the document's settings, or the first fault in the order in which keys are read: the table
//! `global`, then each `[[tenant]]` with its `name`, its own keys and its tables `tail_sampling`, `batch`,
//! `sending_queue` and `retry_on_failure`. Keys that no setting has are ignored. The names are those of the
//! OpenTelemetry Collector's `tail_sampling` and `batch` processors and of its `exporterhelper`; durations are whole
//! milliseconds. docs/SETTINGS.md has every key.
//!
//! Settings that load are sound: every number is in its range, and what many tenants add up to is bounded. Types hold
//! the numbers of a section in their ranges; `load` holds those of policies, and what tenants add up to.
//!
//! It stands on the library's `toml` and `indexmap`.
#![tactic(auto)]

mod batch;
mod change;
mod document;
mod equal;
mod fault;
mod global;
mod keys;
mod parsed;
mod policy;
mod policy_table;
mod queue_bytes;
mod retry_on_failure;
mod section;
mod sending_queue;
mod settings;
mod tail_sampling;
mod tenant;
mod texts;

pub use batch::Batch;
pub use change::numbers_of_tenants;
pub use document::load;
pub use equal::equal_sections;
pub use fault::{SettingsFault, equal_faults};
pub use global::GlobalSettings;
pub use parsed::Document;
pub use policy::{LeafPolicy, PolicySpec, StatusCode, equal_policies, same_policies};
pub use retry_on_failure::RetryOnFailure;
pub use section::Section;
pub use sending_queue::{MOST_QUEUE_BYTES, SendingQueue};
pub use settings::Settings;
pub use tail_sampling::TailSampling;
pub use tenant::Tenant;
