//! A script's commands, done by shards.

use crate::shards::Shards;
use replay_script::{AnswerFault, Command, Session};
use std::alloc::Global;
use std::thread::Threads;
use tenant_shard::Step;

impl Session for Shards {
    ghost use Rattle.trace_collector.specs.Standing.{Answers};

    ghost answers = { Answers };

    fn answer<T: Threads + Sync>(
        &mut self,
        rt: &T,
        alloc: Global,
        command: Command<'_>,
        out: &mut Vec<u8>,
    ) -> Result<(), AnswerFault> {
        match command {
            Command::Post { name, moment, body } => self.post(rt, alloc, name, moment, body, out),
            Command::Turn { shard, moment } => self.turn(alloc, shard, moment, out),
            Command::Answer {
                name,
                moment,
                ticket,
                word,
                answer,
            } => {
                let Some(tenant) = self.number(name) else {
                    return Err(AnswerFault::Unknown);
                };
                let step = Step::Answer {
                    tenant,
                    now: moment,
                    ticket,
                    word,
                    answer,
                };
                self.step_of(alloc, tenant, &step, out)?;
                Ok(())
            }
            Command::Report { name, moment } => self.report(alloc, name, moment, out),
            Command::Drain { name, moment } => self.drain(alloc, name, moment, out),
            Command::Add { document } => {
                self.add(alloc, document.as_slice(), out)?;
                Ok(())
            }
            Command::Retire { name, moment } => self.retire(alloc, name, moment, out),
        }
    }
}
