//! A connection in memory, and who answers what comes from it.
ghost use Rattle.std.specs.Prelude.{ℕ};
ghost use Rattle.http_edge.specs.declared.message.RefusalForm.TheVariants.{Status};

use crate::fault::{BenchFault, of_edge, of_settings};
use http_edge::{
    Allow, Handler, HttpMessage, MediaType, RefusalForm, Reply, connection_buffer, serve,
};
use http_line::MemoryLine;
use otlp_front::{Route, route};
use std::alloc::{AllocError, Global};
use std::thread::Threads;
use tail_settings::{Settings, load};

/// So many tenants stand before the one that messages name: a look-up that went through them would be seen.
const OTHERS: u32 = 999;

const TABLES: &str =
    "tail_sampling = { policy = [{ type = \"always_sample\" }] }, max_spans = 1000 }";

/// The settings' text, with the tenant `bench` in the last place.
fn settings_text(alloc: Global) -> Result<String, AllocError> {
    let mut text = String::from_str(alloc, "tenant = [")?;
    for number in 0..OTHERS {
        let tenant = format!(in alloc; "{{ name = \"t{number}\", ")?;
        text.push_str(&tenant)?;
        text.push_str(TABLES)?;
        text.push_str(", ")?;
    }
    text.push_str("{ name = \"bench\", ")?;
    text.push_str(TABLES)?;
    text.push_str("]")?;
    Ok(text)
}

/// Says where each message goes, and answers a post at once: what is done with a body isn't measured here.
#[derive(Drop)]
struct Front {
    alloc: Global,
    settings: Settings,
    posts: u64,
}

impl Handler for Front {
    ghost refusals = { Status };

    ghost answers = { λ _ _ _ _. Unit {0} };

    fn refusals() -> RefusalForm {
        RefusalForm::Status
    }

    fn reply_to_head(&self, head: &HttpMessage) -> Option<Reply> {
        match route(&self.settings, head) {
            Route::Post { .. } => None,
            Route::Refuse(refusal) => Some(empty(self.alloc, refusal.status())),
        }
    }

    fn handle<T: Threads + Sync>(&mut self, _rt: &T, message: HttpMessage) -> Reply {
        match route(&self.settings, &message) {
            Route::Post { tenant: _ } => {
                self.posts = self.posts.saturating_add(1);
                empty(self.alloc, 200)
            }
            Route::Refuse(refusal) => empty(self.alloc, refusal.status()),
        }
    }
}

fn empty(alloc: Global, status: u16) -> Reply {
    Reply {
        status,
        media: MediaType::Protobuf,
        allow: Allow::Post,
        body: Vec::new(alloc),
    }
}

/// What became of a connection: how many messages were posts, and how many bytes were written.
#[derive(Clone, Copy)]
pub(crate) struct Served {
    pub posts: u64,
    pub written: usize,
}

/// A connection, and who answers.
#[derive(Drop)]
pub(crate) struct Connection {
    alloc: Global,
    line: MemoryLine,
    buffer: Vec<u8>,
    front: Front,
}

impl Connection {
    pub(crate) fn open(alloc: Global, input: Vec<u8>) -> Result<Connection, BenchFault> {
        Ok(Connection {
            alloc,
            line: MemoryLine::new(input, Vec::new(alloc), Vec::new(alloc), 0),
            buffer: connection_buffer(alloc)?,
            front: Front {
                alloc,
                settings: load(alloc, settings_text(alloc)?.as_str()).map_err(of_settings)?,
                posts: 0,
            },
        })
    }

    /// Reads and answers to the end of the input.
    pub(crate) fn serve<T: Threads + Sync>(&mut self, rt: &T) -> Result<Served, BenchFault> {
        serve(
            rt,
            self.alloc,
            &mut self.line,
            &mut self.front,
            &mut self.buffer,
        )
        .map_err(of_edge)?;
        Ok(Served {
            posts: self.front.posts,
            written: self.line.output().len(),
        })
    }
}
