//! Readers and writers that do little a call, are interrupted or fail, and a session that has no memory.

use replay_script::{AnswerFault, Command, ScriptFault, Session, put_idle, run_script};
use std::alloc::Global;
use std::io;
use std::io::{BufReader, Read, Write};
use std::process::Abort;
use std::thread::Threads;
use trace_collector::{ReplayFault, replay};

/// Answers so many turns by their moments, and has no memory from then on.
#[derive(Drop)]
struct Turns {
    left: usize,
}

impl Session for Turns {
    ghost answers = { λ old command line new. Unit {0} };

    fn answer<T: Threads + Sync>(
        &mut self,
        _rt: &T,
        alloc: Global,
        command: Command<'_>,
        out: &mut Vec<u8>,
    ) -> Result<(), AnswerFault> {
        if self.left == 0 {
            return Err(AnswerFault::OutOfMemory);
        }
        self.left -= 1;
        match command {
            Command::Turn { moment, .. } => {
                put_idle(alloc, out, moment)?;
                Ok(())
            }
            _ => Err(AnswerFault::Unknown),
        }
    }
}

/// Gives so many bytes at most every second call, and is interrupted in each other one. Where the text ends it fails or
/// there is no more.
#[derive(Drop)]
struct Drips<'a> {
    text: &'a [u8],
    most: usize,
    fails: bool,
    is_next: bool,
}

fn dripping(text: &[u8], most: usize, fails: bool) -> Drips<'_> {
    Drips {
        text,
        most,
        fails,
        is_next: false,
    }
}

impl Read for Drips<'_> {
    fn read(&mut self, buf: &mut [u8]) -> io::Result<usize> {
        self.is_next = !self.is_next;
        if self.is_next {
            return Err(io::ErrorKind::Interrupted.into());
        }
        if self.fails && self.text.is_empty() {
            return Err(io::ErrorKind::Other.into());
        }
        let most = self.most.min(buf.len());
        self.text.read(&mut buf[..most])
    }
}

/// Takes a byte every second call, and is interrupted in each other one. It fails once so many are taken.
#[derive(Drop)]
struct Sips {
    taken: Vec<u8>,
    most: usize,
    is_next: bool,
}

impl Write for Sips {
    fn write(&mut self, buf: &[u8]) -> io::Result<usize> {
        self.is_next = !self.is_next;
        if self.is_next {
            return Err(io::ErrorKind::Interrupted.into());
        }
        if buf.is_empty() {
            return Ok(0);
        }
        if self.taken.len() >= self.most {
            return Err(io::ErrorKind::Other.into());
        }
        self.taken.push(buf[0])?;
        Ok(1)
    }

    fn flush(&mut self) -> io::Result<()> {
        Ok(())
    }
}

/// Whether a script that comes through a buffer of so many bytes ends so, with this text written, of which the writer
/// takes so many bytes at most.
fn runs<R: Threads + Abort + Sync>(
    rt: &R,
    alloc: Global,
    capacity: usize,
    drips: Drips<'_>,
    most: usize,
    end: Result<(), ScriptFault>,
    text: &[u8],
) -> bool {
    let Ok(mut reader) = BufReader::with_capacity(alloc, capacity, drips) else {
        panic!(rt; "memory: OutOfMemory");
    };
    let mut writer = Sips {
        taken: Vec::new(alloc),
        most,
        is_next: false,
    };
    let mut turns = Turns { left: 10_000 };
    let told = run_script(rt, alloc, &mut turns, &mut reader, &mut writer);
    told == end && writer.taken.as_slice() == text
}

/// So many turns, one a line behind this word.
fn lines_of_turns(rt: &impl Abort, alloc: Global, word: &str) -> String {
    let mut text = String::new(alloc);
    for turn in 100_000..110_000u32 {
        let line = format!(in alloc; "{word} {turn}\n").expect(rt, "memory");
        text.push_str(line.as_str()).expect(rt, "memory");
    }
    text
}

/// Whether a script and its answers come through a buffer of so many bytes, a byte a call.
fn comes_through<R: Threads + Abort + Sync>(
    rt: &R,
    alloc: Global,
    capacity: usize,
    script: &[u8],
    answers: &[u8],
) -> bool {
    let drips = dripping(script, 1, false);
    runs(rt, alloc, capacity, drips, 120_000, Ok(()), answers)
}

/// Whether many turns and their answers come through a small buffer and a large one.
fn turns_come_through<R: Threads + Abort + Sync>(rt: &R, alloc: Global) -> bool {
    let script = lines_of_turns(rt, alloc, "turn 0");
    let answers = lines_of_turns(rt, alloc, "idle");
    let (script, answers) = (script.as_bytes(), answers.as_bytes());
    comes_through(rt, alloc, 1, script, answers) && comes_through(rt, alloc, 8192, script, answers)
}

#[test]
fn a_byte_a_call_and_every_second_call_interrupted(rt: HostRuntime) {
    assert!(rt; turns_come_through(&rt, rt.alloc()));
}

/// Whether a script that comes so many bytes a call is answered up to its last line, in which the reader fails.
fn comes_in_pieces<R: Threads + Abort + Sync>(rt: &R, alloc: Global, most: usize) -> bool {
    let drips = dripping(b"# six\nturn 0 1\n\nturn 0 2\nturn 0 3", most, true);
    let end = Err(ScriptFault::Line);
    runs(rt, alloc, 5, drips, 100, end, b"idle 1\nidle 2\n")
}

#[test]
fn lines_are_the_same_in_any_pieces(rt: HostRuntime) {
    let alloc = rt.alloc();
    assert!(rt;
        comes_in_pieces(&rt, alloc, 1)
            && comes_in_pieces(&rt, alloc, 2)
            && comes_in_pieces(&rt, alloc, 3)
            && comes_in_pieces(&rt, alloc, 7)
    );
}

#[test]
fn a_writer_that_fails_ends_the_run(rt: HostRuntime) {
    let alloc = rt.alloc();
    let script = b"turn 0 1\nturn 0 2\n".as_slice();
    let drips = dripping(script, 100, false);
    let end = Err(ScriptFault::Line);
    let few = runs(&rt, alloc, 100, drips, 9, end, b"idle 1\nid");
    let drips = dripping(script, 100, false);
    let all = runs(&rt, alloc, 100, drips, 14, Ok(()), b"idle 1\nidle 2\n");
    assert!(rt; few && all);
}

#[test]
fn without_memory_the_answers_so_far_are_written(rt: HostRuntime) {
    let alloc = rt.alloc();
    let mut reader: &[u8] = b"turn 0 1\nturn 0 2\nturn 0 3\nturn 0 4\n";
    let mut out = Vec::new(alloc);
    let mut turns = Turns { left: 2 };
    let told = run_script(&rt, alloc, &mut turns, &mut reader, &mut out);
    let is_written = out.as_slice() == b"idle 1\nidle 2\n".as_slice();
    assert!(rt;
        told == Err(ScriptFault::OutOfMemory) && is_written && reader.starts_with(b"turn 0 4\n")
    );
}

const SETTINGS: &str = "[[tenant]]
name = \"a\"
tail_sampling = { policy = [{ type = \"always_sample\" }] }
";

/// Whether a replay ends in these words, none where all is done.
fn ends_in(rt: &impl Abort, alloc: Global, end: Result<(), ReplayFault>, words: &str) -> bool {
    match end {
        Ok(()) => words.is_empty(),
        Err(fault) => {
            let told = fault.to_string(alloc).expect(rt, "memory");
            told.as_str() == words
        }
    }
}

/// Whether a replay under these settings ends so, with this text written, of which the writer takes so many bytes.
fn replays<R: Threads + Abort + Sync>(
    rt: &R,
    alloc: Global,
    settings: &str,
    drips: Drips<'_>,
    most: usize,
    end: &str,
    text: &[u8],
) -> bool {
    let Ok(mut reader) = BufReader::new(alloc, drips) else {
        panic!(rt; "memory: OutOfMemory");
    };
    let mut writer = Sips {
        taken: Vec::new(alloc),
        most,
        is_next: false,
    };
    let told = replay(rt, alloc, settings, &mut reader, &mut writer);
    ends_in(rt, alloc, told, end) && writer.taken.as_slice() == text
}

/// Whether a replay that is done ends so, and those whose reader fails in the last line, whose writer fails, and whose
/// third line is no command.
fn scripts_end<R: Threads + Abort + Sync>(rt: &R, alloc: Global) -> bool {
    let answers = b"idle 0\nidle 0\n".as_slice();
    let fault = "input or output fault";
    let drips = dripping(b"turn 0 1\nturn 0 2", 1, false);
    let done = replays(rt, alloc, SETTINGS, drips, 14, "", answers);
    let drips = dripping(b"turn 0 1\nturn 0 2\nturn 0 3", 1, true);
    let unread = replays(rt, alloc, SETTINGS, drips, 100, fault, answers);
    let drips = dripping(b"turn 0 1\nturn 0 2\nno command\n", 1, false);
    let unwritten = replays(rt, alloc, SETTINGS, drips, 13, fault, b"idle 0\nidle 0");
    let drips = dripping(b"turn 0 1\nturn 0 2\nno command\n", 1, false);
    let fault = "script fault at line 3";
    let faulty = replays(rt, alloc, SETTINGS, drips, 14, fault, answers);
    done && unread && unwritten && faulty
}

/// Also one whose settings are faulty, and one that has no memory.
#[test]
fn replays_end_in_their_words(rt: HostRuntime) {
    let alloc = rt.alloc();
    let drips = dripping(b"no command\n", 1, false);
    let faulty = replays(&rt, alloc, "name =", drips, 100, "settings fault 10", b"");
    let refused = ends_in(&rt, alloc, Err(ReplayFault::OutOfMemory), "out of memory");
    assert!(rt; scripts_end(&rt, alloc) && faulty && refused);
}
