//! Tests of `tenant_registry`: settings in force that are changed and looked at, who is present, documents that are
//! read or not, and what whoever asks for a change and whoever is refused is told. What is wanted was written by hand
//! after docs/OPERATING.md, docs/HTTP.md and docs/SETTINGS.md.
#![tactic(auto)]

#[cfg(test)]
mod change_tests;
#[cfg(test)]
mod document_tests;
#[cfg(test)]
mod in_force_tests;
#[cfg(test)]
mod reply_tests;
#[cfg(test)]
mod roster_tests;
#[cfg(test)]
mod told;
