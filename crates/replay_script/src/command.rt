//! The command that a line says.

ghost use Rattle.std.specs.Prelude.{◌≡◌, ◌==◌, ◌&&◌, ◌∷◌, codes, IfOk};
ghost use Rattle.std.specs.Option.{option_map};
ghost use Rattle.std.specs.List.{position};
ghost use Rattle.std.specs.Str.{bytes_eq};
ghost use Rattle.send_retry.specs.Class.{answer_view};
ghost use Rattle.replay_script.specs.Word.{words_of, words_behind, status_of, seconds_of, bytes_of};
ghost use Rattle.replay_script.specs.Command.{command_of, command_from, post_of, turn_of, answer_of, back_end_answer_from, failed_from, http_from, tenant_of, report_of, drain_of, add_of, retire_of};
ghost use Rattle.replay_script.specs.Named.{command_view};

use crate::word::{body, bytes, name, number, random_word, seconds, status};
use memchr::memchr;
use send_retry::Answer;
use std::alloc::{AllocError, Global};

/// What a line asks for. Moments are in milliseconds.
#[derive(Debug, PartialEq, Drop)]
pub enum Command<'a> {
    /// `post NAME MOMENT HEX`: a body arrives.
    Post {
        name: &'a str,
        moment: u64,
        body: Vec<u8>,
    },
    /// `turn SHARD MOMENT`: a worker's turn.
    Turn {
        shard: u64,
        moment: u64,
    },
    /// `answer NAME MOMENT TICKET WORD STATUS RETRY HEX`: a back end answers the job of a ticket. The word spreads the
    /// next attempt, if there is one.
    Answer {
        name: &'a str,
        moment: u64,
        ticket: u64,
        word: u32,
        answer: Answer,
    },
    /// `report NAME MOMENT`: a tenant's report.
    Report {
        name: &'a str,
        moment: u64,
    },
    /// `drain NAME MOMENT`: what a tenant has waiting is decided and cut into batches at once.
    Drain {
        name: &'a str,
        moment: u64,
    },
    /// `add HEX`: a tenant comes, which the bytes of a document describe.
    Add {
        document: Vec<u8>,
    },
    /// `retire NAME MOMENT`: a tenant that was drained and holds nothing leaves.
    Retire {
        name: &'a str,
        moment: u64,
    },
}

/// The command that a line says, which is given without its line end.
#[tactic(auto, using(crate::proofs::Words::alone_none), unfolding(crate::specs::Command::command_of))]
pub fn parse_line(alloc: Global, line: &[u8]) -> Result<Option<Command<'_>>, AllocError>
    ensures { IfOk result (λ found. option_map command_view found ≡ command_of line.now) }
{
    let (verb, rest) = first_word(line);
    let Some(rest) = rest else {
        return Ok(None);
    };
    by_verb(alloc, verb, rest)
}

/// The command of this verb, with the words behind it.
#[tactic(auto, unfolding(crate::specs::Command::command_from))]
fn by_verb<'a>(
    alloc: Global,
    verb: &[u8],
    text: &'a [u8],
) -> Result<Option<Command<'a>>, AllocError>
    ensures { IfOk result (λ found. option_map command_view found
        ≡ command_from (verb.now ∷ words_of text.now)) }
{
    if verb == b"post".as_slice() {
        return post(alloc, text);
    }
    if verb == b"turn".as_slice() {
        return Ok(turn(text));
    }
    if verb == b"answer".as_slice() {
        return answer(alloc, text);
    }
    if verb == b"report".as_slice() {
        return Ok(report(text));
    }
    if verb == b"drain".as_slice() {
        return Ok(drain(text));
    }
    if verb == b"add".as_slice() {
        return add(alloc, text);
    }
    if verb == b"retire".as_slice() {
        return Ok(retire(text));
    }
    Ok(None)
}

/// The first word, and what stands behind the space after it.
fn first_word(text: &[u8]) -> (&[u8], Option<&[u8]>)
    ensures { words_of text.now ≡ result.0.now ∷ words_behind result.1 }
{
    match first_space(text) {
        Some(at) => (&text[..at], Some(&text[at + 1..])),
        None => (text, None),
    }
}

fn first_space(text: &[u8]) -> Option<usize>
    ensures { result ≡ position (λ byte. byte == 32) text.now }
{
    memchr(b' ', text)
}

/// `NAME MOMENT HEX`
#[tactic(auto, using(crate::proofs::Words::post_of_more), unfolding(crate::specs::Command::post_of))]
fn post(alloc: Global, text: &[u8]) -> Result<Option<Command<'_>>, AllocError>
    ensures { IfOk result (λ found. option_map command_view found ≡ post_of (words_of text.now)) }
{
    let (name_word, Some(rest)) = first_word(text) else {
        return Ok(None);
    };
    let (moment_word, Some(rest)) = first_word(rest) else {
        return Ok(None);
    };
    let (body_word, more) = first_word(rest);
    if more.is_some() {
        return Ok(None);
    }
    let (Some(name), Some(moment)) = (name(name_word), number(moment_word)) else {
        return Ok(None);
    };
    let Some(body) = body(alloc, body_word)? else {
        return Ok(None);
    };
    Ok(Some(Command::Post { name, moment, body }))
}

/// `SHARD MOMENT`
#[tactic(auto, using(crate::proofs::Words::turn_of_more), unfolding(crate::specs::Command::turn_of))]
fn turn(text: &[u8]) -> Option<Command<'_>>
    ensures { option_map command_view result ≡ turn_of (words_of text.now) }
{
    let (shard_word, Some(rest)) = first_word(text) else {
        return None;
    };
    let (moment_word, more) = first_word(rest);
    if more.is_some() {
        return None;
    }
    let (Some(shard), Some(moment)) = (number(shard_word), number(moment_word)) else {
        return None;
    };
    Some(Command::Turn { shard, moment })
}

/// `NAME MOMENT TICKET WORD STATUS RETRY HEX`
#[tactic(auto, unfolding(crate::specs::Command::answer_of))]
fn answer(alloc: Global, text: &[u8]) -> Result<Option<Command<'_>>, AllocError>
    ensures { IfOk result (λ found. option_map command_view found ≡ answer_of (words_of text.now)) }
{
    let (name_word, Some(rest)) = first_word(text) else {
        return Ok(None);
    };
    let (moment_word, Some(rest)) = first_word(rest) else {
        return Ok(None);
    };
    job_answer(alloc, name_word, moment_word, rest)
}

/// `TICKET WORD STATUS RETRY HEX`, behind a name and a moment
#[tactic(auto, using(crate::proofs::Words::no_answer), unfolding(crate::specs::Command::answer_of))]
fn job_answer<'a>(
    alloc: Global,
    name_word: &'a [u8],
    moment_word: &[u8],
    text: &[u8],
) -> Result<Option<Command<'a>>, AllocError>
    ensures { IfOk result (λ found. option_map command_view found
        ≡ answer_of (name_word.now ∷ moment_word.now ∷ words_of text.now)) }
{
    let (ticket_word, Some(rest)) = first_word(text) else {
        return Ok(None);
    };
    let (spread_word, rest) = first_word(rest);
    let Some(answer) = answer_behind(alloc, rest)? else {
        return Ok(None);
    };
    let (Some(name), Some(moment), Some(ticket), Some(word)) = (
        name(name_word),
        number(moment_word),
        number(ticket_word),
        random_word(spread_word),
    ) else {
        return Ok(None);
    };
    Ok(Some(Command::Answer {
        name,
        moment,
        ticket,
        word,
        answer,
    }))
}

/// `STATUS RETRY HEX`, where there is more of the line
#[tactic(auto, unfolding(crate::specs::Command::back_end_answer_from))]
fn answer_behind(alloc: Global, text: Option<&[u8]>) -> Result<Option<Answer>, AllocError>
    ensures { IfOk result (λ found. option_map answer_view found ≡ back_end_answer_from
        (words_behind text.entry)) }
{
    match text {
        Some(text) => back_end_answer(alloc, text),
        None => Ok(None),
    }
}

/// `STATUS RETRY HEX`, the status a number or `failed`
#[tactic(auto, using(crate::proofs::Words::back_end_answer_more), unfolding(crate::specs::Command::back_end_answer_from, crate::specs::Command::back_end_answer_of))]
fn back_end_answer(alloc: Global, text: &[u8]) -> Result<Option<Answer>, AllocError>
    ensures { IfOk result (λ found. option_map answer_view found ≡ back_end_answer_from
        (words_of text.now)) }
{
    let (status_word, Some(rest)) = first_word(text) else {
        return Ok(None);
    };
    let (retry_word, Some(rest)) = first_word(rest) else {
        return Ok(None);
    };
    let (body_word, more) = first_word(rest);
    if more.is_some() {
        return Ok(None);
    }
    if status_word == b"failed".as_slice() {
        return Ok(failed(retry_word, body_word));
    }
    http(alloc, status_word, retry_word, body_word)
}

/// `- -`, behind `failed`
fn failed(retry_word: &[u8], body_word: &[u8]) -> Option<Answer>
    ensures { option_map answer_view result
        ≡ failed_from (bytes_eq retry_word.now (codes "-") && bytes_eq body_word.now (codes "-")) }
{
    if retry_word == b"-".as_slice() && body_word == b"-".as_slice() {
        Some(Answer::Failed)
    } else {
        None
    }
}

/// `STATUS RETRY HEX` of a whole answer
fn http(
    alloc: Global,
    status_word: &[u8],
    retry_word: &[u8],
    body_word: &[u8],
) -> Result<Option<Answer>, AllocError>
    ensures { IfOk result (λ found. option_map answer_view found
        ≡ http_from (status_of status_word.now) (seconds_of retry_word.now)
        (bytes_of body_word.now)) }
{
    let (Some(status), Some(retry_after)) = (status(status_word), seconds(retry_word)) else {
        return Ok(None);
    };
    let Some(body) = bytes(alloc, body_word)? else {
        return Ok(None);
    };
    Ok(Some(Answer::Http {
        status,
        retry_after,
        body,
    }))
}

/// `NAME MOMENT` of a report
fn report(text: &[u8]) -> Option<Command<'_>>
    ensures { option_map command_view result ≡ report_of (words_of text.now) }
{
    let (name, moment) = tenant_at(text)?;
    Some(Command::Report { name, moment })
}

/// `NAME MOMENT` of a drain
fn drain(text: &[u8]) -> Option<Command<'_>>
    ensures { option_map command_view result ≡ drain_of (words_of text.now) }
{
    let (name, moment) = tenant_at(text)?;
    Some(Command::Drain { name, moment })
}

/// `HEX` of a tenant that comes
#[tactic(auto, using(crate::proofs::Words::add_of_more), unfolding(crate::specs::Command::add_of))]
fn add(alloc: Global, text: &[u8]) -> Result<Option<Command<'_>>, AllocError>
    ensures { IfOk result (λ found. option_map command_view found ≡ add_of (words_of text.now)) }
{
    let (document_word, more) = first_word(text);
    if more.is_some() {
        return Ok(None);
    }
    let Some(document) = body(alloc, document_word)? else {
        return Ok(None);
    };
    Ok(Some(Command::Add { document }))
}

/// `NAME MOMENT` of a retirement
fn retire(text: &[u8]) -> Option<Command<'_>>
    ensures { option_map command_view result ≡ retire_of (words_of text.now) }
{
    let (name, moment) = tenant_at(text)?;
    Some(Command::Retire { name, moment })
}

/// `NAME MOMENT`
#[tactic(auto, using(crate::proofs::Words::tenant_of_more), unfolding(crate::specs::Command::tenant_of))]
fn tenant_at(text: &[u8]) -> Option<(&str, u64)>
    ensures { option_map (λ found. (found.0.now, found.1)) result ≡ tenant_of (words_of text.now) }
{
    let (name_word, Some(rest)) = first_word(text) else {
        return None;
    };
    let (moment_word, more) = first_word(rest);
    if more.is_some() {
        return None;
    }
    let (Some(name), Some(moment)) = (name(name_word), number(moment_word)) else {
        return None;
    };
    Some((name, moment))
}
