//! Who changes the settings in force, on behalf of who reads the input.

ghost use Rattle.std.specs.Prelude.{◌≡◌, ◌∷◌, ◌++◌, [], Ok, IfOk, IfErr};
ghost use Rattle.tail_settings.specs.Change.{strike};
ghost use Rattle.tail_settings.specs.Fault.{fault_view};
ghost use Rattle.tail_settings.specs.Settings.{document_in, document_view};
ghost use Rattle.tenant_registry.specs.InForce.{IsLetIn, IsTurnedAway};
ghost use Rattle.toml.specs.Parse.{parse_document};

use crate::in_force::{InForce, Newcomer};
use crate::naming::SettingsNaming;
use crate::noted::{ChangeList, Noted};
use std::alloc::Global;
use std::marker::Model;
use std::sync::{Mutex, Wait};
use tail_settings::{Document, SettingsFault};

/// Lets tenants into the settings in force and strikes them. Nobody else does, so it knows each change that was made.
/// Contracts see it as these changes.
#[derive(Drop)]
pub struct Registrar<'h, J: SettingsNaming, R> {
    rt: &'h R,
    settings: &'h Mutex<InForce<J>>,
    list: &'h ChangeList<J>,
    noted: Noted<J>,
}

impl<'h, J: SettingsNaming, R> Model for Registrar<'h, J, R> {
    ghost use Rattle.std.specs.Prelude.{List};
    ghost use Rattle.tail_settings.specs.Change.{Change};

    ghost Value = { List Change };

    ghost view = { λ r. r.noted };
}

impl<'h, J: SettingsNaming, R: Wait> Registrar<'h, J, R> {
    /// One that changes these settings, and knows of these changes.
    pub fn new(
        rt: &'h R,
        settings: &'h Mutex<InForce<J>>,
        list: &'h ChangeList<J>,
        noted: Noted<J>,
    ) -> Registrar<'h, J, R>
        ensures { result ≡ noted }
    {
        Registrar {
            rt,
            settings,
            list,
            noted,
        }
    }

    /// The tenant of a document, let in by the settings in force. No lock is held while the text is parsed.
    pub fn newcomer(&mut self, alloc: Global, text: &str) -> Result<Newcomer, SettingsFault>
        ensures on_success { IfOk result (λ newcomer. IsLetIn J.first self.old text.now newcomer
            self.new) }
        ensures fault { IfErr result (λ e. IsTurnedAway J.first self.old text.now (fault_view e)
            self.new) }
    {
        let document = Document::parse(alloc, text)?;
        self.admit(alloc, text, &document)
    }

    /// The same of the document of a text, which was parsed. The settings are locked while its keys are read, and it
    /// isn't freed meanwhile.
    fn admit(
        &mut self,
        alloc: Global,
        text: &str,
        document: &Document,
    ) -> Result<Newcomer, SettingsFault>
        requires { document_in (parse_document text.now) ≡ Ok (document_view document.now) }
        ensures on_success { IfOk result (λ newcomer. IsLetIn J.first self.old text.now newcomer
            self.new) }
        ensures fault { IfErr result (λ e. IsTurnedAway J.first self.old text.now (fault_view e)
            self.new) }
    {
        let mut settings = self.settings.lock(self.rt);
        settings.admit(alloc, self.list, &mut self.noted, text, document)
    }

    /// Takes the tenant of this number out of the settings in force.
    pub fn strike(&mut self, number: u32)
        ensures { self.new ≡ self.old ++ strike number ∷ [] }
    {
        let mut settings = self.settings.lock(self.rt);
        settings.strike(self.list, &mut self.noted, number);
    }
}
