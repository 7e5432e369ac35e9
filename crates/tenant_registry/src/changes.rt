//! What whoever asks for a change of the tenants is told.

ghost use Rattle.std.specs.Prelude.{◌≡◌, ◌≢◌, ◌↔◌, ◌++◌, ℕ, List, [], None, IsTrue, IfOk, IfSome, codes, option_copied, option_map, string_bytes};
ghost use Rattle.drop_ledger.specs.Ledger.{LedgerData, LedgerInvariant, ledger_of};
ghost use Rattle.http_edge.specs.Seen.{response_of};
ghost use Rattle.service_runtime.specs.Notice.{notice_of};
ghost use Rattle.tenant_registry.specs.Changed.{HasWarnings, SaysCame, TellsAdded, TellsAdding, TellsCome, TellsFaulty, TellsRefused, TellsRetired, TellsRetiring, busy_reply, going_text, last_line, refused_otherwise, refused_reply, untold_reply, went_reply};

use crate::replies::without_memory;
use admin_pages::{TenantFigures, TenantUsage, put_gone, read_report};
use http_edge::{MediaType, Reply};
use service_runtime::Asked;
use service_runtime::notices::{came, notice, shown, unknown};
use settings_check::{Report, check};
use std::alloc::{AllocError, Global};
use std::str;

/// What is told of the coming of a document's tenant.
pub fn added(alloc: Global, asked: Asked, document: &[u8]) -> Result<Reply, AllocError>
    ensures { IfOk result (λ reply. TellsAdding asked document.now (response_of reply)) }
{
    match asked {
        Asked::Told(line) => match str::from_utf8(line.as_slice()) {
            Ok(line) => add_answered(alloc, line, document),
            Err(_) => Ok(without_memory(alloc)),
        },
        asked => untold(alloc, &asked),
    }
}

/// What is told of the coming of a document's tenant, where this line answered.
fn add_answered(alloc: Global, line: &str, document: &[u8]) -> Result<Reply, AllocError>
    ensures { IfOk result (λ reply. TellsAdded document.now line.now (response_of reply)) }
{
    if let Some(name) = name_added(line) {
        return came_with(alloc, name, document);
    }
    match line.strip_prefix("refused add ") {
        Some(why) => not_added(alloc, why, document),
        None => Ok(without_memory(alloc)),
    }
}

/// The name in a line that says that a tenant came.
fn name_added(line: &str) -> Option<&str>
    ensures says { IfSome result (λ name. SaysCame line.now name.now) }
    ensures none { result ≡ None → (name : List ℕ) → SaysCame line.now name → ⊥ }
{
    let named = line.strip_prefix("added ")?;
    match named.split_once(' ') {
        Some((name, _number)) => Some(name),
        None => None,
    }
}

/// A tenant of this name came, with its document.
fn came_with(alloc: Global, name: &str, document: &[u8]) -> Result<Reply, AllocError>
    ensures { IfOk result (λ reply. TellsCome document.now name.now (response_of reply)) }
{
    let report = check(alloc, document)?;
    came(alloc, name, warnings(&report))
}

/// The warnings of a document, which stand before its settings in its report. Doubts aren't among them: these are of
/// settings that the document doesn't have alone.
fn warnings(report: &Report) -> &str
    ensures { HasWarnings (string_bytes report.now.text) report.now.is_good result.now }
{
    if !report.is_good {
        return "";
    }
    match report.text.split_once("# the settings in force\n") {
        Some((warnings, _settings)) => warnings.trim_end(),
        None => "",
    }
}

/// What is told of a tenant that was refused for this.
fn not_added(alloc: Global, why: &str, document: &[u8]) -> Result<Reply, AllocError>
    ensures { IfOk result (λ reply. TellsRefused document.now why.now (refused_reply why.now)
        (response_of reply)) }
{
    if why == "14\n" {
        notice(alloc, 409, "error", "a tenant of that name is present")
    } else if why == "memory\n" {
        Ok(without_memory(alloc))
    } else {
        faulty(alloc, document, refused_otherwise(why))
    }
}

/// What is told of one that was refused for this though its document is good by itself.
fn refused_otherwise(why: &str) -> &'static str
    ensures { result.now ≡ refused_otherwise why.now }
{
    if why == "15\n" {
        "there would be more tenants, or more spans at a time, than settings allow"
    } else {
        "the document doesn't have exactly one tenant"
    }
}

/// What is wrong with a document, in words: in these where it is good by itself.
fn faulty(alloc: Global, document: &[u8], otherwise: &str) -> Result<Reply, AllocError>
    ensures { IfOk result (λ reply. TellsFaulty document.now otherwise.now (response_of reply)) }
{
    let report = check(alloc, document)?;
    if report.is_good {
        notice(alloc, 422, "error", otherwise)
    } else {
        notice(alloc, 422, "error", report.text.as_str().trim_end())
    }
}

/// What is told of the going of the tenant of this name.
pub fn retired(alloc: Global, asked: Asked, name: &str) -> Result<Reply, AllocError>
    ensures { IfOk result (λ reply. TellsRetiring asked name.now (response_of reply)) }
{
    match asked {
        Asked::Told(line) => retire_told(alloc, line.as_slice(), name),
        asked => untold(alloc, &asked),
    }
}

/// What is told of the going of the tenant of this name, where these bytes answered.
fn retire_told(alloc: Global, line: &[u8], name: &str) -> Result<Reply, AllocError>
    ensures { IfOk result (λ reply. TellsRetired name.now line.now (response_of reply)) }
{
    if line.is_empty() {
        return unknown(alloc);
    }
    match str::from_utf8(line) {
        Ok(line) => retire_answered(alloc, line, name),
        Err(_) => Ok(without_memory(alloc)),
    }
}

/// What is told of the going of the tenant of this name, where this line answered, which has a byte.
fn retire_answered(alloc: Global, line: &str, name: &str) -> Result<Reply, AllocError>
    requires { line.now ≢ [] }
    ensures { IfOk result (λ reply. TellsRetired name.now line.now (response_of reply)) }
{
    if let Some(counters) = last_counters(line, name) {
        return went(alloc, name, counters);
    }
    if is_refusal(line, name, "22") {
        return unknown(alloc);
    }
    if is_refusal(line, name, "26") {
        return notice(alloc, 409, "error", "the tenant stays: it holds spans");
    }
    Ok(without_memory(alloc))
}

/// The tenant of this name went with these counters.
fn went(alloc: Global, name: &str, counters: [u64; 14]) -> Result<Reply, AllocError>
    ensures { IfOk result (λ reply. response_of reply ≡ went_reply name.now (ledger_of counters)) }
{
    let figures = TenantFigures {
        name: String::from_str(alloc, name)?,
        counters,
        usage: TenantUsage::none(),
        ready: None,
        back_end: None,
    };
    let mut text = Vec::new(alloc);
    put_gone(alloc, &mut text, &figures)?;
    Ok(shown(200, MediaType::Json, text))
}

/// The counters in the line with which a tenant of this name went.
fn last_counters(line: &str, name: &str) -> Option<[u64; 14]>
    ensures only { IfSome result (λ counters. line.now ≡ last_line name.now (ledger_of counters)) }
    ensures each { (ledger : LedgerData) → LedgerInvariant ledger
        → line.now ≡ last_line name.now ledger → option_map ledger_of result ≡ Some ledger }
{
    match text_behind(line, "report ", name) {
        Some(counters) => read_report(counters.as_bytes()),
        None => None,
    }
}

/// Whether a line says that the tenant of this name was refused something, by this number.
fn is_refusal(line: &str, name: &str, number: &str) -> bool
    ensures { IsTrue result
        ↔ (line.now ≡ codes "refused " ++ name.now ++ codes " " ++ number.now ++ codes "\n") }
{
    match text_behind(line, "refused ", name) {
        Some(other) => other == number,
        None => false,
    }
}

/// What stands in a line behind this word and this name.
fn text_behind<'l>(line: &'l str, word: &str, name: &str) -> Option<&'l str>
    ensures only { IfSome result (λ text. line.entry.now
        ≡ word.now ++ name.now ++ codes " " ++ text.now ++ codes "\n") }
    ensures each { (text : List ℕ) → line.entry.now
        ≡ word.now ++ name.now ++ codes " " ++ text ++ codes "\n" → option_copied result ≡ Some text }
{
    let named = line.strip_prefix(word)?;
    let behind = named.strip_prefix(name)?;
    let text = behind.strip_prefix(" ")?;
    text.strip_suffix("\n")
}

/// What is told where nothing was answered in time.
fn untold(alloc: Global, asked: &Asked) -> Result<Reply, AllocError>
    ensures { IfOk result (λ reply. response_of reply ≡ untold_reply asked.now) }
{
    match asked {
        Asked::Late => notice(alloc, 202, "state", "it is being done"),
        Asked::Ended => notice(alloc, 503, "error", "shutting down"),
        Asked::Busy { going } => busy(alloc, going),
        Asked::Told(_) => another(alloc),
    }
}

/// That another change is being made: the tenant of this name goes, if one is known to.
fn busy(alloc: Global, going: &Option<String>) -> Result<Reply, AllocError>
    ensures { IfOk result (λ reply. response_of reply ≡ busy_reply going.now) }
{
    match going {
        Some(name) => still_going(alloc, name.as_str()),
        None => another(alloc),
    }
}

/// That the tenant of this name goes.
fn still_going(alloc: Global, name: &str) -> Result<Reply, AllocError>
    ensures { IfOk result (λ reply. response_of reply ≡ notice_of 503 (codes "error")
        (going_text name.now)) }
{
    let text = text_of_going(alloc, name)?;
    notice(alloc, 503, "error", text.as_str())
}

/// That the tenant of this name goes, in words.
fn text_of_going(alloc: Global, name: &str) -> Result<String, AllocError>
    ensures { IfOk result (λ text. string_bytes text ≡ going_text name.now) }
{
    let text = format!(in alloc; "the tenant {name} is going: try again")?;
    Ok(text)
}

/// That another tenant comes or goes.
fn another(alloc: Global) -> Result<Reply, AllocError>
    ensures { IfOk result (λ reply. response_of reply ≡ busy_reply None) }
{
    notice(
        alloc,
        503,
        "error",
        "another tenant is coming or going: try again",
    )
}
