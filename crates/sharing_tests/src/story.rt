//! A story of three tenants in two shards, and of a fourth that comes and goes, and how its lines are written.

/// Three tenants in two shards, the third in the first's. Traces are sampled a second after they opened, of the third
/// only those with an error. Each group of spans is a batch, and one at a time is on its way. Of the first tenant one
/// batch waits, and none is sent again later than 50 seconds after it was sent first.
pub const SETTINGS: &str = "
[global]
shards = 2

[[tenant]]
name = \"a\"
tail_sampling = { decision_wait_ms = 1000, policy = [{ type = \"always_sample\" }] }
batch = { timeout_ms = 0 }
sending_queue = { queue_size = 1, num_consumers = 1 }
retry_on_failure = { max_elapsed_time_ms = 50000 }

[[tenant]]
name = \"b\"
seed = 42
tail_sampling = { decision_wait_ms = 1000, policy = [{ type = \"always_sample\" }] }
batch = { timeout_ms = 0 }
sending_queue = { num_consumers = 1 }

[[tenant]]
name = \"c\"
tail_sampling = { decision_wait_ms = 1000, policy = [{ type = \"status_code\", status_codes = [\"ERROR\"] }] }
batch = { timeout_ms = 0 }
sending_queue = { num_consumers = 1 }
";

/// Each line is a call, in the columns of [`Line`], and what it gives. The words are the first of the generators that
/// start from 0 and 42, as another program computed them. b's first one picks a delay of 2500 + 5001 * 3400036912 /
/// 2^32 milliseconds, which is 6458; a's second one, of 3750 + 7501 * 4236525527 / 2^32, which is 11148, and that is
/// too late. The tenant with number 3 comes with b's section, so that its words are b's.
pub const STORY: &str = "\
- look 0 = yes 0/0/50000/100000/0/1 0/4398046511104 - -
0 post 2 9000 0 0 caller 0a20121e121c0a101111111111111111111111111111111112084141414141414141 = reply 2 200
0 post 0 0 0 0 caller 0a20121e121c0a101111111111111111111111111111111112082121212121212121 = reply 0 200
0 post 0 0 0 0 caller 0a20121e121c0a101212121212121212121212121212121212082222222222222222 = reply 0 200
0 post 0 0 0 0 caller 0a20121e121c0a101313131313131313131313131313131312082323232323232323 = reply 0 200
1 post 1 0 0 0 caller 0a20121e121c0a101111111111111111111111111111111112083131313131313131 = reply 1 200
1 report 0 0 0 0 caller = refused 0 22
- look 0 = no 3/3/50000/100000/0/1 0/4398046511104 1000 1000
- look 2 = no 1/1/50000/100000/0/1000 0/4398046511104 10000 1000
0 turn 0 999 0 0 caller = idle 0 0
0 turn 0 1000 0 0 caller = job 0 1 0a20121e121c0a101111111111111111111111111111111112082121212121212121
0 report 0 1000 0 0 caller = report 0 0 accepted=3 undecided=0 pending=0 queued=0 active=1 exported=0 \
not_sampled=0 too_early=0 queue_full=2 retry_exhausted=0 back_end_refused=0 back_end_rejected=0 invalid=0 over_budget=0
- look 0 = no 3/0/50000/100000/0/1 0/4398046511104 - 10000
1 turn 0 1000 0 0 caller = job 1 1 0a20121e121c0a101111111111111111111111111111111112083131313131313131
0 answer 0 1000 1 298703107 drawn 503 40 = done 0 0
- look 0 = no 3/0/50000/100000/0/1 0/4398046511104 41000 10000
1 answer 1 1000 1 3400036912 drawn 503 = done 1 0
1 answer 1 1000 1 3349765444 drawn 200 = refused 1 21
0 turn 0 9999 0 0 caller = idle 0 0
0 post 2 12000 0 0 caller 0a24122212200a1011111111111111111111111111111111120842424242424242427a021802 = reply 2 200
0 report 2 12000 0 0 caller = report 2 0 accepted=2 undecided=0 pending=0 queued=0 active=0 exported=0 \
not_sampled=2 too_early=0 queue_full=0 retry_exhausted=0 back_end_refused=0 back_end_rejected=0 invalid=0 over_budget=0
0 turn 0 40999 0 0 caller = idle 0 0
0 turn 0 41000 0 0 caller = job 0 2 0a20121e121c0a101111111111111111111111111111111112082121212121212121
0 answer 0 41000 2 4236525527 drawn 503 = done 0 0
0 report 0 41000 0 0 caller = report 0 0 accepted=3 undecided=0 pending=0 queued=0 active=0 exported=0 \
not_sampled=0 too_early=0 queue_full=2 retry_exhausted=1 back_end_refused=0 back_end_rejected=0 invalid=0 over_budget=0
- look 0 = yes 3/0/50000/100000/0/1 0/4398046511104 - -
1 post 1 5000 0 0 caller 0a20121e121c0a101212121212121212121212121212121212083232323232323232 = reply 1 200
1 drain 1 5000 0 0 caller = done 1 0
1 post 1 5000 0 0 caller 0a20121e121c0a101313131313131313131313131313131312083333333333333333 = reply 1 503 \
120d7368757474696e6720646f776e
- look 1 = no 2/0/50000/100000/1/1000 0/4398046511104 7458 7458
1 report 1 5000 0 0 caller = report 1 0 accepted=2 undecided=0 pending=0 queued=1 active=1 exported=0 \
not_sampled=0 too_early=0 queue_full=0 retry_exhausted=0 back_end_refused=0 back_end_rejected=0 invalid=0 over_budget=0
1 turn 0 7457 0 0 caller = idle 0 0
1 turn 0 7458 0 0 caller = job 1 2 0a20121e121c0a101111111111111111111111111111111112083131313131313131
1 answer 1 7458 2 515166382 drawn 200 = done 1 0
- look 1 = no 2/0/50000/100000/1/1000 0/4398046511104 5000 5000
1 turn 0 7458 0 0 caller = job 1 3 0a20121e121c0a101212121212121212121212121212121212083232323232323232
1 answer 1 7458 3 4224707908 drawn 200 = done 1 0
1 report 1 7458 0 0 caller = report 1 0 accepted=2 undecided=0 pending=0 queued=0 active=0 exported=2 \
not_sampled=0 too_early=0 queue_full=0 retry_exhausted=0 back_end_refused=0 back_end_rejected=0 invalid=0 over_budget=0
- look 1 = yes 2/0/50000/100000/0/1000 0/4398046511104 - -
1 answer 7 7458 1 0 nobody 200 = refused 7 22
- look 7 = no 0/0/0/0/0/0 0/0 - -
1 add 1 0 0 0 caller 0 = refused 1 25
1 post 3 0 0 0 caller 0a20121e121c0a101111111111111111111111111111111112084141414141414141 1 = refused 3 22
1 add 3 0 0 0 caller 1 = done 3 0
- look 3 = yes 0/0/50000/100000/0/1000 0/4398046511104 - -
1 post 3 0 0 0 caller 0a20121e121c0a101111111111111111111111111111111112084141414141414141 1 = reply 3 200
1 turn 0 1000 0 0 caller = job 3 1 0a20121e121c0a101111111111111111111111111111111112084141414141414141
1 post 3 1000 0 0 caller 0a20121e121c0a101212121212121212121212121212121212084242424242424242 1 = reply 3 200
1 report 3 2000 0 0 caller = report 3 0 accepted=2 undecided=0 pending=0 queued=1 active=1 exported=0 \
not_sampled=0 too_early=0 queue_full=0 retry_exhausted=0 back_end_refused=0 back_end_rejected=0 invalid=0 over_budget=0
- look 3 = no 2/0/50000/100000/1/1000 34/4398046511104 - -
1 retire 3 1000 0 0 caller = refused 3 26
1 answer 3 1000 1 0 caller 200 = done 3 0
1 turn 0 2000 0 0 caller = job 3 2 0a20121e121c0a101212121212121212121212121212121212084242424242424242
1 answer 3 2000 2 0 caller 200 = done 3 0
1 answer 3 1000 1 3400036912 drawn 200 = refused 3 21
1 drain 3 1000 0 0 caller = done 3 0
1 retire 3 1000 0 0 caller = report 3 0 accepted=2 undecided=0 pending=0 queued=0 active=0 exported=2 \
not_sampled=0 too_early=0 queue_full=0 retry_exhausted=0 back_end_refused=0 back_end_rejected=0 invalid=0 over_budget=0
- look 3 = no 0/0/0/0/0/0 0/0 - -
1 post 3 1000 0 0 caller 0a20121e121c0a101111111111111111111111111111111112084141414141414141 1 = refused 3 22
1 answer 3 1000 1 0 nobody 200 = refused 3 22
1 add 3 0 0 0 caller 1 = refused 3 25
";

/// A call as a line says it.
#[derive(Clone, Copy)]
pub struct Line<'s> {
    /// `-` where only a question is asked, which makes no step.
    pub shard: &'s str,
    pub kind: &'s str,
    /// 0 where none is named.
    pub tenant: u32,
    pub now: u64,
    /// 0 where none is named.
    pub ticket: u64,
    /// 0 where there is none.
    pub word: u32,
    pub word_of: &'s str,
    /// A body's digits, the status of an answer, or the tenant of the settings whose section a tenant comes with.
    pub first: &'s str,
    /// How long an answer asks to wait, if it does, or whose section the tenant of a body has, if not its own of the
    /// settings.
    pub second: &'s str,
    /// A kind of outcome, a tenant, a number and perhaps a text: hexadecimal digits, but for a report. Of a question
    /// whether the tenant holds no spans, its rows, those of them that are undecided, the limits of rows and of spans,
    /// its batches in the queue and their limit, their bytes (34 a batch of one span; none after a drain) and how many
    /// they may have, and when it and its shard are ready next, or `-` for never.
    pub outcome: &'s str,
}

/// A text up to its first space, and the rest.
pub fn cut(text: &str) -> (&str, &str) {
    match text.split_once(' ') {
        Some(parts) => parts,
        None => (text, ""),
    }
}

/// What a line says.
pub fn line_of(text: &str) -> Line<'_> {
    let (call, outcome) = match text.split_once(" = ") {
        Some(parts) => parts,
        None => (text, ""),
    };
    let (shard, rest) = cut(call);
    let (kind, rest) = cut(rest);
    let (tenant, rest) = cut(rest);
    let (now, rest) = cut(rest);
    let (ticket, rest) = cut(rest);
    let (word, rest) = cut(rest);
    let (word_of, rest) = cut(rest);
    let (first, second) = cut(rest);
    Line {
        shard,
        kind,
        tenant: tenant.parse().unwrap_or(0),
        now: now.parse().unwrap_or(0),
        ticket: ticket.parse().unwrap_or(0),
        word: word.parse().unwrap_or(0),
        word_of,
        first,
        second,
        outcome,
    }
}
