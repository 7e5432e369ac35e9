//! What is read from files.

ghost use Rattle.std.specs.Prelude.{◌≡◌, IfOk, IfErr, Ok, OnOk, OnErr, string_bytes};
ghost use Rattle.collector_command.specs.Fault.{IsOfText, IsOutside};
ghost use Rattle.collector_command.specs.Reason.{TellsOf};

use crate::fault::ProgramFault;
use crate::reason::Reason;
use service_runtime::Documents;
use tail_settings::SettingsFault;
use trace_collector::ReplayFault;

/// A file's bytes.
pub fn read_file<R: Documents + AllocGlobal>(
    rt: &R,
    path: &str,
    reason: &mut Reason,
) -> Result<Vec<u8>, ProgramFault>
    ensures bytes { IfOk result (λ bytes. R.reads path.now (Ok bytes.items)) }
    ensures fault { IfErr result IsOutside }
    ensures told { reason.new.is_told ≡ reason.old.is_told }
    ensures line { OnErr result (TellsOf path.now reason.old reason.new) }
    ensures same { OnOk result (reason.new ≡ reason.old) }
{
    match rt.read_document(rt.alloc(), path) {
        Ok(bytes) => Ok(bytes),
        Err(error) => Err(reason.of(path, error)),
    }
}

/// The text that a file's bytes spell. Bytes that spell none are no TOML document.
pub fn settings_text(bytes: Vec<u8>) -> Result<String, ProgramFault>
    ensures text { IfOk result (λ text. string_bytes text ≡ bytes.items) }
    ensures fault { IfErr result (IsOfText bytes.items) }
{
    match String::from_utf8(bytes) {
        Ok(text) => Ok(text),
        Err(_) => Err(ProgramFault::Replay(ReplayFault::Settings(SettingsFault::NotToml))),
    }
}
