//! What the service is doing, on standard error.

use crate::admin::AdminDoor;
use service_runtime::{Observer, Stage};
use std::io;
use std::net::TcpListener;

/// Tells the service's course on standard error, a line a stage, where that is asked for. What can't be written is left
/// out, and nothing else changes.
#[derive(Drop)]
pub struct Course<'r, R> {
    pub rt: &'r R,
    pub listener: &'r TcpListener,
    pub door: &'r Option<AdminDoor>,
    pub is_verbose: bool,
}

impl<R: Eprint> Observer for Course<'_, R> {
    fn observe(&mut self, stage: Stage<'_>) {
        if self.is_verbose {
            let _ = self.tell(stage);
        }
    }
}

impl<R: Eprint> Course<'_, R> {
    fn tell(&self, stage: Stage<'_>) -> io::Result<()> {
        match stage {
            Stage::Serving => {
                let address = self.listener.local_addr()?;
                eprintln!(self.rt; "serving at {address}")?;
                if let Some(door) = self.door {
                    let address = door.listener.local_addr()?;
                    eprintln!(self.rt; "admin port at {address}")?;
                }
                Ok(())
            }
            Stage::Skipped { line } => {
                let line = line.escape_ascii();
                eprintln!(self.rt; "skipped: {line}")
            }
            Stage::Draining => self.rt.eprintln(
                "draining: tenants take no more spans, and send what they hold",
            ),
            Stage::Sending { name } => {
                eprintln!(self.rt; "sending: waiting until {name} holds no spans")
            }
            Stage::Closing => self
                .rt
                .eprintln("closing: all is sent, waiting for open connections"),
            Stage::Ended => self.rt.eprintln("ended: all threads are done"),
        }
    }
}
