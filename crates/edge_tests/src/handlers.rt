//! Who answers in talks.
ghost use Rattle.std.specs.Prelude.{◌≡◌, ℕ};
ghost use Rattle.http_edge.specs.declared.message.RefusalForm.TheVariants.{Status, Json};

use http_edge::{Allow, Handler, HttpMessage, MediaType, RefusalForm, Reply};
use otlp_front::{Route, RouteRefusal, route};
use std::alloc::{AllocError, Global};
use std::str;
use std::thread::Threads;
use tail_settings::Settings;

/// Answers each message with the body that it was sent, and with the status that its target says.
#[derive(Drop)]
pub struct Echo;

impl Handler for Echo {
    ghost refusals = { Status };

    ghost answers = { λ _ _ _ _. Unit {0} };

    fn refusals() -> RefusalForm {
        RefusalForm::Status
    }

    fn reply_to_head(&self, _head: &HttpMessage) -> Option<Reply> {
        None
    }

    fn handle<T: Threads + Sync>(&mut self, _rt: &T, message: HttpMessage) -> Reply {
        let HttpMessage { target, body, .. } = message;
        Reply {
            status: status_of(&target),
            media: MediaType::Protobuf,
            allow: Allow::Post,
            body,
        }
    }
}

/// Answers as `Echo` does, at a port whose refusals are JSON.
#[derive(Drop)]
pub struct JsonEcho;

impl Handler for JsonEcho {
    ghost refusals = { Json };

    ghost answers = { λ _ _ _ _. Unit {0} };

    fn refusals() -> RefusalForm {
        RefusalForm::Json
    }

    fn reply_to_head(&self, head: &HttpMessage) -> Option<Reply> {
        Echo.reply_to_head(head)
    }

    fn handle<T: Threads + Sync>(&mut self, rt: &T, message: HttpMessage) -> Reply {
        Echo.handle(rt, message)
    }
}

/// The number behind a target's slash, 200 where there is none.
fn status_of(target: &[u8]) -> u16 {
    let [b'/', digits @ ..] = target else {
        return 200;
    };
    let Ok(text) = str::from_utf8(digits) else {
        return 200;
    };
    text.parse().unwrap_or(200)
}

/// Says 200 of each message that is routed to a tenant, whatever its body is, and refuses the others, by their heads
/// where it is asked of these.
#[derive(Drop)]
pub struct Front<'a> {
    pub alloc: Global,
    pub settings: &'a Settings,
}

impl Handler for Front<'_> {
    ghost refusals = { Status };

    ghost answers = { λ _ _ _ _. Unit {0} };

    fn refusals() -> RefusalForm
        ensures { result ≡ Status }
    {
        RefusalForm::Status
    }

    fn reply_to_head(&self, head: &HttpMessage) -> Option<Reply> {
        match route(self.settings, head) {
            Route::Post { .. } => None,
            Route::Refuse(refusal) => refusal.reply(self.alloc).ok(),
        }
    }

    fn handle<T: Threads + Sync>(&mut self, _rt: &T, message: HttpMessage) -> Reply {
        match routed(self.alloc, self.settings, &message) {
            Ok(reply) => reply,
            Err(_) => no_memory(self.alloc),
        }
    }
}

fn routed(alloc: Global, settings: &Settings, message: &HttpMessage) -> Result<Reply, AllocError> {
    match route(settings, message) {
        Route::Post { .. } => Ok(Reply {
            status: 200,
            media: MediaType::Protobuf,
            allow: Allow::Post,
            body: Vec::new(alloc),
        }),
        Route::Refuse(refusal) => refusal.reply(alloc),
    }
}

/// Answers that there was no memory, and notes that it was asked.
#[derive(Drop)]
pub struct Lacking {
    pub alloc: Global,
    pub asked: bool,
}

impl Handler for Lacking {
    ghost refusals = { Status };

    ghost answers = { λ _ _ _ _. Unit {0} };

    fn refusals() -> RefusalForm {
        RefusalForm::Status
    }

    fn reply_to_head(&self, _head: &HttpMessage) -> Option<Reply> {
        None
    }

    fn handle<T: Threads + Sync>(&mut self, _rt: &T, _message: HttpMessage) -> Reply {
        self.asked = true;
        no_memory(self.alloc)
    }
}

/// Answers that there was no memory, and notes how much room the last body had beside its bytes.
#[derive(Drop)]
pub struct Measuring {
    pub alloc: Global,
    pub spare: Option<usize>,
}

impl Handler for Measuring {
    ghost refusals = { Status };

    ghost answers = { λ _ _ _ _. Unit {0} };

    fn refusals() -> RefusalForm {
        RefusalForm::Status
    }

    fn reply_to_head(&self, _head: &HttpMessage) -> Option<Reply> {
        None
    }

    fn handle<T: Threads + Sync>(&mut self, _rt: &T, message: HttpMessage) -> Reply {
        self.spare = Some(message.body.capacity().saturating_sub(message.body.len()));
        no_memory(self.alloc)
    }
}

/// Replies to each head that there is no such path, and counts the messages whose bodies it is given nevertheless.
#[derive(Drop)]
pub struct Heedless {
    pub alloc: Global,
    pub given: u32,
}

impl Handler for Heedless {
    ghost refusals = { Status };

    ghost answers = { λ _ _ _ _. Unit {0} };

    fn refusals() -> RefusalForm {
        RefusalForm::Status
    }

    fn reply_to_head(&self, _head: &HttpMessage) -> Option<Reply> {
        RouteRefusal::NoSuchPath.reply(self.alloc).ok()
    }

    fn handle<T: Threads + Sync>(&mut self, _rt: &T, _message: HttpMessage) -> Reply {
        self.given = self.given.saturating_add(1);
        RouteRefusal::NoSuchPath
            .reply(self.alloc)
            .unwrap_or_else(|_| no_memory(self.alloc))
    }
}

/// The reply that takes no memory.
fn no_memory(alloc: Global) -> Reply {
    Reply {
        status: 503,
        media: MediaType::Protobuf,
        allow: Allow::Post,
        body: Vec::new(alloc),
    }
}
