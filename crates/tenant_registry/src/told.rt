//! Back ends that refuse posts or don't answer, as an operator is told of them.

ghost use Rattle.std.specs.Prelude.{IfSome, string_bytes};
ghost use Rattle.tenant_registry.specs.InForce.{HasName};

use crate::in_force::InForce;
use crate::naming::SettingsNaming;
use export_edge::BackEnd;
use job_lane::Job;
use send_retry::Answer;
use std::alloc::Global;
use std::io;
use std::sync::{Mutex, Wait};

/// Posts to a back end and, where it is verbose, tells standard error of each answer that isn't one of success: whose
/// back end gave it, by its name or else by its number, and its status. What can't be written is left out, and nothing
/// else changes.
#[derive(Drop)]
pub struct ToldBackEnd<'h, B, J: SettingsNaming, R> {
    pub rt: &'h R,
    pub alloc: Global,
    pub settings: &'h Mutex<InForce<J>>,
    /// Whether standard error is told.
    pub is_verbose: bool,
    /// Who posts.
    pub back_end: B,
}

impl<'h, B: BackEnd, J: SettingsNaming, R: Eprint + Wait> BackEnd for ToldBackEnd<'h, B, J, R> {
    // Each job is posted once to the back end behind it.
    ghost posts = { λ old p new. B.posts old.back_end p new.back_end };

    fn post(&mut self, job: &Job) -> Answer {
        let answer = self.back_end.post(job);
        if self.is_verbose {
            let _ = self.tell(job.tenant, &answer);
        }
        answer
    }
}

impl<'h, B, J: SettingsNaming, R: Eprint + Wait> ToldBackEnd<'h, B, J, R> {
    fn tell(&self, tenant: u32, answer: &Answer) -> io::Result<()> {
        match answer {
            Answer::Http {
                status: 200..300,
                ..
            } => Ok(()),
            Answer::Http { status, .. } => match self.name(tenant) {
                Some(name) => {
                    let name = name.as_str();
                    eprintln!(self.rt; "back end of {name}: {status}")
                }
                None => eprintln!(self.rt; "back end of tenant {tenant}: {status}"),
            },
            Answer::Failed => match self.name(tenant) {
                Some(name) => {
                    let name = name.as_str();
                    eprintln!(self.rt; "back end of {name}: no answer")
                }
                None => eprintln!(self.rt; "back end of tenant {tenant}: no answer"),
            },
        }
    }

    /// The tenant's name. None where it has gone, or memory is refused. Meanwhile the settings are locked.
    fn name(&self, tenant: u32) -> Option<String>
        ensures { IfSome result (λ name. HasName J.first tenant (string_bytes name)) }
    {
        self.settings.lock(self.rt).name(self.alloc, tenant)
    }
}
