//! Where threads of the admin port hand in what they ask of who reads its input, and hear what it answers.

ghost use Rattle.std.specs.Prelude.{◌≤◌, length, None, IfSome};

use std::alloc::Global;
use std::io::{ErrorKind, Read, Write};
use std::sync::{Condvar, Mutex, Wait};
use std::time::{Clock, Duration, Instant};
use std::{io, mem, str};

/// Who waits looks again after so many milliseconds at most.
const LOOK: u64 = 1_000;

/// So many bytes have room for each answer: the longest is a report, with a name of 64 bytes and fourteen counters.
const ANSWER_ROOM: usize = 1_024;

/// What is asked. It is one thing at a time.
#[derive(Drop)]
enum Matter {
    Nothing,
    /// A line that wasn't read yet, with the document of who is to come.
    Asked {
        line: Vec<u8>,
        document: Vec<u8>,
    },
    /// The line was read, and is answered by these bytes so far. Who asked may have left.
    Heard {
        line: Vec<u8>,
        document: Vec<u8>,
        told: Vec<u8>,
        is_awaited: bool,
    },
    /// The answer, which whoever asked is to fetch.
    Told(Vec<u8>),
}

#[derive(Drop)]
struct DeskState {
    matter: Matter,
    // Nothing is asked any more, and the input ends.
    is_ended: bool,
}

/// What came of a question.
#[derive(Drop)]
pub enum Asked {
    /// This was answered.
    Told(Vec<u8>),
    /// It is being done, for longer than was to be waited.
    Late,
    /// Something else is being done, so nothing was asked: the tenant of this name goes, or where there is none another
    /// comes, or it isn't known.
    Busy { going: Option<String> },
    /// The input has ended, so nothing was asked.
    Ended,
}

/// Where threads of the admin port hand in what they ask of who reads its input, and hear what it answers.
#[derive(Drop)]
pub struct AdminDesk {
    alloc: Global,
    state: Mutex<DeskState>,
    bell: Condvar,
}

impl AdminDesk {
    /// Nothing is asked yet.
    pub fn new(alloc: Global) -> AdminDesk {
        AdminDesk {
            alloc,
            state: Mutex::new(DeskState {
                matter: Matter::Nothing,
                is_ended: false,
            }),
            bell: Condvar::new(),
        }
    }

    /// The input ends, once what was read of it is answered.
    pub fn end<R: Wait>(&self, rt: &R) {
        self.state.lock(rt).is_ended = true;
        self.bell.notify_all();
    }

    /// Whether the input ends.
    pub fn is_ended<R: Wait>(&self, rt: &R) -> bool {
        self.state.lock(rt).is_ended
    }

    /// Hands in a line with its end, and for who is to come its document, and waits for the answer for so long at most.
    pub fn ask<R: Wait + Clock>(
        &self,
        rt: &R,
        line: Vec<u8>,
        document: Vec<u8>,
        limit: Duration,
    ) -> Asked {
        if let Some(refused) = self.hand_in(rt, line, document) {
            return refused;
        }
        let Ok(start) = Instant::now(rt) else {
            return self.give_up(rt);
        };
        'looks: for _ in rt.forever() {
            let heard = self.bell.notifications();
            if let Some(asked) = self.fetch(rt) {
                return asked;
            }
            let left = limit.saturating_sub(start.elapsed(rt).unwrap_or(limit));
            if left.is_zero() {
                return self.give_up(rt);
            }
            self.bell.sleep(rt, heard, left);
        }
        unreachable!()
    }

    /// None where the line was taken.
    fn hand_in<R: Wait>(&self, rt: &R, line: Vec<u8>, document: Vec<u8>) -> Option<Asked> {
        let mut state = self.state.lock(rt);
        if state.is_ended {
            return Some(Asked::Ended);
        }
        if !matches!(state.matter, Matter::Nothing) {
            let going = who_goes(self.alloc, &state.matter);
            return Some(Asked::Busy { going });
        }
        state.matter = Matter::Asked { line, document };
        self.bell.notify_all();
        None
    }

    /// The answer, once it is there.
    fn fetch<R: Wait>(&self, rt: &R) -> Option<Asked> {
        let mut state = self.state.lock(rt);
        let is_ended = state.is_ended;
        match mem::replace(&mut state.matter, Matter::Nothing) {
            Matter::Told(told) => Some(Asked::Told(told)),
            Matter::Asked { .. } if is_ended => Some(Asked::Ended),
            matter => {
                state.matter = matter;
                None
            }
        }
    }

    /// Whoever asked leaves. What nobody has read yet is asked no more.
    fn give_up<R: Wait>(&self, rt: &R) -> Asked {
        let mut state = self.state.lock(rt);
        match mem::replace(&mut state.matter, Matter::Nothing) {
            Matter::Told(told) => Asked::Told(told),
            Matter::Heard {
                line,
                document,
                told,
                ..
            } => {
                state.matter = Matter::Heard {
                    line,
                    document,
                    told,
                    is_awaited: false,
                };
                Asked::Late
            }
            Matter::Nothing | Matter::Asked { .. } => Asked::Busy { going: None },
        }
    }

    /// What was read is answered.
    fn finish<R: Wait>(&self, rt: &R) {
        let mut state = self.state.lock(rt);
        match mem::replace(&mut state.matter, Matter::Nothing) {
            Matter::Heard {
                told,
                is_awaited,
                line: _,
                document: _,
            } => {
                if is_awaited {
                    state.matter = Matter::Told(told);
                    self.bell.notify_all();
                }
            }
            matter => state.matter = matter,
        }
    }

    /// The next line's length, once it is there, and memory for its answer, which is not to be lost; 0 at the end. A
    /// line has room.
    fn take_line<R: Wait>(&self, rt: &R, room: &mut [u8]) -> Option<usize>
        ensures { IfSome result (λ count. count ≤ length room.old) }
    {
        let mut state = self.state.lock(rt);
        if state.is_ended {
            return Some(0);
        }
        match mem::replace(&mut state.matter, Matter::Nothing) {
            Matter::Asked { line, document } => {
                let Ok(told) = Vec::with_capacity(self.alloc, ANSWER_ROOM) else {
                    state.matter = Matter::Asked { line, document };
                    return None;
                };
                let count = line.len().min(room.len());
                room[..count].copy_from_slice(&line[..count]);
                state.matter = Matter::Heard {
                    line,
                    document,
                    told,
                    is_awaited: true,
                };
                Some(count)
            }
            matter => {
                state.matter = matter;
                None
            }
        }
    }

    /// This is written for an answer, which has room.
    fn note<R: Wait>(&self, rt: &R, bytes: &[u8]) {
        let mut state = self.state.lock(rt);
        if let Matter::Heard { told, .. } = &mut state.matter {
            let _ = told.extend_from_slice(bytes);
        }
    }

    /// The document of the line that is being answered, once.
    pub fn document<R: Wait>(&self, rt: &R) -> Option<Vec<u8>> {
        let mut state = self.state.lock(rt);
        match &mut state.matter {
            Matter::Heard { document, .. } => Some(mem::replace(document, Vec::new(self.alloc))),
            _ => None,
        }
    }
}

/// The name of the tenant that is asked to go. None where another comes, or memory is refused.
fn who_goes(alloc: Global, matter: &Matter) -> Option<String> {
    let line = match matter {
        Matter::Asked { line, .. } | Matter::Heard { line, .. } => line.as_slice(),
        Matter::Nothing | Matter::Told(_) => return None,
    };
    let named = line.strip_prefix(b"retire ".as_slice())?;
    let name = str::from_utf8(named).ok()?.trim_end();
    String::from_str(alloc, name).ok()
}

/// The input of a service with an admin port: the lines that are asked for at its desk, until it is to end.
#[derive(Drop)]
pub struct DeskInput<'d, R> {
    pub rt: &'d R,
    pub desk: &'d AdminDesk,
}

impl<R: Wait + Clock> Read for DeskInput<'_, R> {
    // Nobody knows what will be asked.
    ghost remaining = { λ _. None };

    fn read(&mut self, buf: &mut [u8]) -> io::Result<usize> {
        if buf.is_empty() {
            return Ok(0);
        }
        self.desk.finish(self.rt);
        'looks: for _ in self.rt.forever() {
            let heard = self.desk.bell.notifications();
            if let Some(count) = self.desk.take_line(self.rt, buf) {
                return Ok(count);
            }
            let look = Duration::from_millis(LOOK);
            self.desk.bell.sleep(self.rt, heard, look);
        }
        unreachable!()
    }
}

/// An output of which the desk hears what answers its lines, also where the output fails.
#[derive(Drop)]
pub struct DeskOutput<'d, R, W> {
    pub rt: &'d R,
    pub desk: &'d AdminDesk,
    pub output: W,
}

impl<R: Wait, W: Write> Write for DeskOutput<'_, R, W> {
    ghost contents = { λ s. W.contents s.output };

    fn write(&mut self, buf: &[u8]) -> io::Result<usize> {
        match self.output.write(buf) {
            Ok(count) => {
                self.desk.note(self.rt, &buf[..count]);
                Ok(count)
            }
            Err(error) => {
                if error.kind() != ErrorKind::Interrupted {
                    self.desk.note(self.rt, buf);
                }
                Err(error)
            }
        }
    }

    fn flush(&mut self) -> io::Result<()> {
        self.output.flush()
    }
}
