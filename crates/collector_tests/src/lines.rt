//! Steps and outcomes of a shard as lines of a script say them. Tenants 0, 1 and 2 are `a`, `b` and `c`, and `h` is 7.

use crate::sections::Fixture;
use bytes::Bytes;
use otlp_prepare::prepare;
use replay_script::{
    Command, parse_line, put_done, put_idle, put_job, put_refused, put_reply, put_report,
    put_worked,
};
use std::alloc::{AllocError, Global};
use std::process::Abort;
use std::thread::Threads;
use tail_settings::Settings;
use tenant_shard::{Outcome, Step};

/// Bodies by their spans. A span is the byte of its trace id, which stands there sixteen times, the byte of its own id,
/// which stands there eight times, and its other fields. Spans of one scope are parted by `+` and resources by `/`, and
/// a resource's bytes stand before its spans.
const BODIES: &str = "\
1001:11.21+11.22/1002:12.23 0a420a021001123c121c0a101111111111111111111111111111111112082121212121212121121c0a1011111\
111111111111111111111111111120822222222222222220a240a021002121e121c0a101212121212121212121212121212121212082323232323\
232323
1001:11.21/12.22 0a240a021001121e121c0a1011111111111111111111111111111111120821212121212121210a20121e121c0a1012121212\
12121212121212121212121212082222222222222222
11.21.7a021802+12.22 0a42124012200a1011111111111111111111111111111111120821212121212121217a021802121c0a10121212121212\
1212121212121212121212082222222222222222
13.23+14.24 0a3e123c121c0a101313131313131313131313131313131312082323232323232323121c0a1014141414141414141414141414141\
41412082424242424242424
1001:11.24+13.25 0a420a021001123c121c0a101111111111111111111111111111111112082424242424242424121c0a101313131313131313\
131313131313131312082525252525252525
1001:11.21+11.22+11.24 0a600a021001125a121c0a101111111111111111111111111111111112082121212121212121121c0a101111111111\
111111111111111111111112082222222222222222121c0a101111111111111111111111111111111112082424242424242424
12.23.7a021802+11.24 0a42124012200a1012121212121212121212121212121212120823232323232323237a021802121c0a10111111111111\
1111111111111111111112082424242424242424
13.23 0a20121e121c0a101313131313131313131313131313131312082323232323232323
1002:12.23/1001:13.25 0a240a021002121e121c0a1012121212121212121212121212121212120823232323232323230a240a021001121e121\
c0a101313131313131313131313131313131312082525252525252525
11.21.7a021802+11.24 0a42124012200a1011111111111111111111111111111111120821212121212121217a021802121c0a10111111111111\
1111111111111111111112082424242424242424
14.25 0a20121e121c0a101414141414141414141414141414141412082525252525252525
13.25.7a021802+14.26 0a42124012200a1013131313131313131313131313131313120825252525252525257a021802121c0a10141414141414\
1414141414141414141412082626262626262626
15.27 0a20121e121c0a101515151515151515151515151515151512082727272727272727
16.25+16.26 0a3e123c121c0a101616161616161616161616161616161612082525252525252525121c0a10161616161616161616161616161616\
1612082626262626262626
17.21+17.22+17.23 0a5c125a121c0a101717171717171717171717171717171712082121212121212121121c0a10171717171717171717171717\
1717171712082222222222222222121c0a101717171717171717171717171717171712082323232323232323
13.25.7a021802 0a24122212200a1013131313131313131313131313131313120825252525252525257a021802
11.21.7a021802 0a24122212200a1011111111111111111111111111111111120821212121212121217a021802
12.22 0a20121e121c0a101212121212121212121212121212121212082222222222222222
11.22+12.22 0a3e123c121c0a101111111111111111111111111111111112082222222222222222121c0a1012121212121212121212121212121\
21212082222222222222222
11.22+13.23 0a3e123c121c0a101111111111111111111111111111111112082222222222222222121c0a1013131313131313131313131313131\
31312082323232323232323
11.21+11.22+11.23 0a5c125a121c0a101111111111111111111111111111111112082121212121212121121c0a101111111111111111111111\
111111111112082222222222222222121c0a101111111111111111111111111111111112082323232323232323
11.25+11.26+11.27 0a5c125a121c0a101111111111111111111111111111111112082525252525252525121c0a101111111111111111111111\
111111111112082626262626262626121c0a101111111111111111111111111111111112082727272727272727
11.24+11.25+11.26 0a5c125a121c0a101111111111111111111111111111111112082424242424242424121c0a101111111111111111111111\
111111111112082525252525252525121c0a101111111111111111111111111111111112082626262626262626
11.24 0a20121e121c0a101111111111111111111111111111111112082424242424242424
11.27 0a20121e121c0a101111111111111111111111111111111112082727272727272727
11.22 0a20121e121c0a101111111111111111111111111111111112082222222222222222
11.21 0a20121e121c0a101111111111111111111111111111111112082121212121212121";

/// The digits of the body with this name, or the word where it names none.
fn digits_of<'a>(word: &'a str) -> &'a str {
    for line in BODIES.lines() {
        if let Some((name, digits)) = line.split_once(' ') {
            if name == word {
                return digits;
            }
        }
    }
    word
}

/// The line with its body's digits in place of its name, which is the last word, and this end.
fn spelled(alloc: Global, line: &str, end: &str) -> Result<String, AllocError> {
    let (first, last) = line.rsplit_once(' ').unwrap_or((line, ""));
    format!(in alloc; "{first} {}{end}", digits_of(last))
}

/// A story's line, which is a command, ` = ` and the line that answers it.
pub fn parts_of(line: &str) -> (&str, &str) {
    line.split_once(" = ").unwrap_or((line, ""))
}

fn number_of(letter: Option<&u8>) -> u32 {
    match letter {
        Some(b'a') => 0,
        Some(b'b') => 1,
        Some(b'c') => 2,
        _ => 7,
    }
}

fn name_of(tenant: u32) -> &'static str {
    match tenant {
        0 => "a",
        1 => "b",
        2 => "c",
        _ => "h",
    }
}

/// The post of a body to the tenant of the name's first letter, prepared for the policies of the one of its last.
fn post_of<R: Threads + Abort + Sync>(
    rt: &R,
    alloc: Global,
    settings: &Settings,
    name: &str,
    now: u64,
    body: Vec<u8>,
) -> Step {
    let tenant = number_of(name.as_bytes().first());
    let own = number_of(name.as_bytes().last());
    let section = settings.section(own).expect(rt, "a section");
    let body = Bytes::from_vec(body).expect(rt, "memory");
    let prepared = prepare(rt, alloc, tenant, section, body, 2).expect(rt, "a good body");
    Step::Post { now, prepared }
}

/// The coming of the tenant of the document's first letter, with the section of the one of its last.
fn added(rt: &impl Abort, settings: &Settings, document: &[u8]) -> Step {
    let tenant = number_of(document.first());
    let own = number_of(document.last());
    let section = settings.section(own).expect(rt, "a section");
    let section = section.copy().expect(rt, "memory");
    Step::Add { tenant, section }
}

/// The step that a command asks for.
fn asked<R: Threads + Abort + Sync>(
    rt: &R,
    alloc: Global,
    settings: &Settings,
    command: Command<'_>,
) -> Step {
    match command {
        Command::Post { name, moment, body } => post_of(rt, alloc, settings, name, moment, body),
        Command::Turn { moment, .. } => Step::Turn { now: moment },
        Command::Answer {
            name,
            moment,
            ticket,
            word,
            answer,
        } => Step::Answer {
            tenant: number_of(name.as_bytes().first()),
            now: moment,
            ticket,
            word,
            answer,
        },
        Command::Report { name, moment } => Step::Report {
            tenant: number_of(name.as_bytes().first()),
            now: moment,
        },
        Command::Drain { name, moment } => Step::Drain {
            tenant: number_of(name.as_bytes().first()),
            now: moment,
        },
        Command::Add { document } => added(rt, settings, document.as_slice()),
        Command::Retire { name, moment } => Step::Retire {
            tenant: number_of(name.as_bytes().first()),
            now: moment,
        },
    }
}

/// The step of a line.
pub fn step_of<R: Threads + Abort + Sync>(
    rt: &R,
    alloc: Global,
    settings: &Settings,
    line: &str,
) -> Step {
    let line = spelled(alloc, line, "").expect(rt, "memory");
    let found = parse_line(alloc, line.as_bytes()).expect(rt, "memory");
    let command = found.expect(rt, "a command");
    asked(rt, alloc, settings, command)
}

/// The steps of a story.
pub fn steps_of<R: Threads + Abort + Sync>(
    rt: &R,
    alloc: Global,
    settings: &Settings,
    story: &str,
) -> Vec<Step> {
    let mut steps = Vec::new(alloc);
    for line in story.lines() {
        let (step, _) = parts_of(line);
        let step = step_of(rt, alloc, settings, step);
        steps.push(step).expect(rt, "memory");
    }
    steps
}

/// Appends the line of an outcome.
fn put(alloc: Global, out: &mut Vec<u8>, outcome: &Outcome) -> Result<(), AllocError> {
    match outcome {
        Outcome::Reply(tenant, reply) => put_reply(
            alloc,
            out,
            name_of(*tenant),
            reply.status,
            reply.body.as_slice(),
        ),
        Outcome::Job(tenant, ticket, payload) => {
            put_job(alloc, out, name_of(*tenant), *ticket, payload.as_slice())
        }
        Outcome::Worked(tenant) => put_worked(alloc, out, name_of(*tenant)),
        Outcome::Idle => put_idle(alloc, out, 0),
        Outcome::Done(tenant) => put_done(alloc, out, name_of(*tenant)),
        Outcome::Report(tenant, report) => {
            put_report(alloc, out, name_of(*tenant), report.as_slice())
        }
        Outcome::Refused(tenant, number) => put_refused(alloc, out, name_of(*tenant), *number),
    }
}

/// Appends the lines of outcomes.
pub fn put_all(alloc: Global, out: &mut Vec<u8>, outcomes: &[Outcome]) -> Result<(), AllocError> {
    for outcome in outcomes {
        put(alloc, out, outcome)?;
    }
    Ok(())
}

/// Whether this line tells the outcome.
pub fn is_told(rt: &impl Abort, alloc: Global, outcome: &Outcome, line: &str) -> bool {
    let mut out = Vec::new(alloc);
    put(alloc, &mut out, outcome).expect(rt, "memory");
    let wanted = spelled(alloc, line, "\n").expect(rt, "memory");
    out.as_slice() == wanted.as_bytes()
}

/// The lines that answer a story's commands.
pub fn answers_of(rt: &impl Abort, alloc: Global, story: &str) -> String {
    let mut text = String::new(alloc);
    for line in story.lines() {
        let (_, answer) = parts_of(line);
        let answer = spelled(alloc, answer, "\n").expect(rt, "memory");
        text.push_str(answer.as_str()).expect(rt, "memory");
    }
    text
}

/// Ends the test with the line where this doesn't hold.
pub fn ensure(rt: &impl Abort, holds: bool, line: &str) {
    assert!(rt; holds, "{line}");
}

/// The step of a line gives what the line says. Else the test ends with the line.
pub fn line_is_told<R: Threads + Abort + Sync>(
    rt: &R,
    alloc: Global,
    fixture: &mut Fixture,
    line: &str,
) {
    let (step, wanted) = parts_of(line);
    let step = step_of(rt, alloc, &fixture.settings, step);
    let outcome = fixture.shard.step(&step).expect(rt, "memory");
    ensure(rt, is_told(rt, alloc, &outcome, wanted), line);
}

/// The same of each line of a story.
pub fn lines_are_told<R: Threads + Abort + Sync>(
    rt: &R,
    alloc: Global,
    fixture: &mut Fixture,
    story: &str,
) {
    for line in story.lines() {
        line_is_told(rt, alloc, fixture, line);
    }
}
