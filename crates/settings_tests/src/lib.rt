//! Tests of what a TOML document means as settings (`tail_settings`) and of what is said of it (`settings_check`), over
//! their public functions. Documents and what is wanted of them were written by hand after docs/SETTINGS.md.
#![tactic(auto)]

#[cfg(test)]
mod changes;
#[cfg(test)]
mod definitions;
#[cfg(test)]
mod loading;
#[cfg(test)]
mod reports;
