//! What is wrong with a settings document, in words, for whoever wrote it.
//!
//! [`check`] loads a document by `tail_settings` and reports in text. Where the document is good, the report has all
//! settings in force as a document of their own, with nothing left to defaults, which loads to the same settings.
//! Where it isn't, the report has its fault, where that stands, and what the key may be. Either way it warns of each
//! key that no setting has: `tail_settings` reads past it, so a misspelt key leaves a default in force. Beside that it
//! has the doubts of a good document: what loads, and would hardly do what was meant, such as an address that can't be
//! one, or a back end that is this service. What it says of such addresses [`address_fault`] gives to who can't listen
//! at one.
//!
//! Which documents are good, and what they mean, is for `tail_settings` alone to say. The tables of src/table.rt have
//! in words what each key may be, as docs/SETTINGS.md has it.
//!
//! It stands on `tail_settings`, and on the library's `toml` and `hex`.
#![tactic(auto)]

mod address;
mod document;
mod doubts;
mod fault_text;
mod hint;
mod law;
mod place;
mod read;
mod report;
mod shown;
mod table;
mod unknown;

pub use address::address_fault;
pub use document::settings_text;
pub use law::{known_keys_are_those_that_are_read, ranges_are_told_as_they_are_read};
pub use report::{Report, check};
