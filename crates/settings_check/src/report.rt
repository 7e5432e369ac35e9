//! The report on a document.

ghost use Rattle.std.specs.Prelude.{◌≡◌, option_map, IfOk, IfSome, Ok, Err, string_bytes};
ghost use Rattle.toml.specs.View.{table_view};
ghost use Rattle.tail_settings.specs.Fault.{fault_view};
ghost use Rattle.tail_settings.specs.Settings.{settings_view, settings_of};
ghost use Rattle.tail_settings.specs.Valid.{AreValidSettings};
ghost use Rattle.settings_check.specs.Report.{IsReport, IsFileReport};
ghost use Rattle.settings_check.specs.Warning.{warnings_of};

use crate::document::settings_text;
use crate::doubts::doubts;
use crate::fault_text::fault_text;
use crate::place::locate;
use crate::read;
use crate::unknown::{joined, warn_of_unknown};
use std::alloc::{AllocError, Global};
use std::str;
use tail_settings::{Settings, SettingsFault, load};
use toml::Table;

/// What is said of bytes that are no text.
const NO_TEXT: &str = "settings fault 10\nthe file is not UTF-8\n";

/// What is said of a document.
#[derive(Debug, Drop)]
pub struct Report {
    /// Whether it gives settings.
    pub is_good: bool,
    /// The settings in force, or the fault, with the warnings: lines for whoever wrote the document.
    pub text: String,
    /// What is doubtful in settings that are good: a line for each doubt, of what most likely wasn't meant so. They are
    /// no part of the text, which has the settings alone.
    pub doubts: String,
}

/// The warnings of a document, if there is one.
fn warnings(alloc: Global, document: Option<&Table>) -> Result<String, AllocError>
    ensures { IfOk result (λ out. string_bytes out
        ≡ warnings_of (option_map (λ t. table_view t.now) document.entry)) }
{
    let mut out = String::new(alloc);
    match document {
        Some(document) => {
            warn_of_unknown(alloc, &mut out, document)?;
            Ok(out)
        }
        None => Ok(out),
    }
}

/// The report on a text that gives these settings.
fn good_report(alloc: Global, text: &str, settings: &Settings) -> Result<Report, AllocError>
    requires loaded { settings_of text.now ≡ Ok (settings_view settings.now) }
    requires valid { AreValidSettings (settings_view settings.now) }
    ensures { IfOk result (λ report. IsReport text.now report.is_good (string_bytes report.text)
        (string_bytes report.doubts)) }
{
    let (document, _words) = read::document(alloc, text)?;
    let warnings = warnings(alloc, document.as_ref())?;
    let shown = settings_text(alloc, settings)?;
    let head = joined(alloc, warnings.as_str(), "# the settings in force\n")?;
    let told = joined(alloc, head.as_str(), shown.as_str())?;
    let doubts = doubts(alloc, settings)?;
    Ok(Report {
        is_good: true,
        text: told,
        doubts,
    })
}

/// The report on a text that has this fault.
fn fault_report(alloc: Global, text: &str, fault: &SettingsFault) -> Result<Report, AllocError>
    requires { IfSome (fault_view fault.now) (λ seen. settings_of text.now ≡ Err seen) }
    ensures { IfOk result (λ report. IsReport text.now report.is_good (string_bytes report.text)
        (string_bytes report.doubts)) }
{
    let (document, words) = read::document(alloc, text)?;
    let place = locate(alloc, document.as_ref(), fault)?;
    let head = fault_text(alloc, &place, fault, words.as_str())?;
    let warnings = warnings(alloc, document.as_ref())?;
    let told = joined(alloc, head.as_str(), warnings.as_str())?;
    Ok(Report {
        is_good: false,
        text: told,
        doubts: String::new(alloc),
    })
}

/// The report on a text.
fn check_text(alloc: Global, text: &str) -> Result<Report, AllocError>
    ensures { IfOk result (λ report. IsReport text.now report.is_good (string_bytes report.text)
        (string_bytes report.doubts)) }
{
    match load(alloc, text) {
        Ok(settings) => good_report(alloc, text, &settings),
        Err(fault) => fault_report(alloc, text, &fault),
    }
}

/// Checks the settings in a file's bytes.
pub fn check(alloc: Global, bytes: &[u8]) -> Result<Report, AllocError>
    // Good where the bytes are a text that means settings, and then with all of them; otherwise with its fault.
    ensures { IfOk result (λ report. IsFileReport bytes.now report.is_good
        (string_bytes report.text) (string_bytes report.doubts)) }
{
    match str::from_utf8(bytes) {
        Ok(text) => check_text(alloc, text),
        Err(_) => Ok(Report {
            is_good: false,
            text: String::from_str(alloc, NO_TEXT)?,
            doubts: String::new(alloc),
        }),
    }
}
