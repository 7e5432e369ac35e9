//! What whoever asks for a change of the tenants is told.

use crate::told::is_told;
use http_edge::{MediaType, Reply};
use service_runtime::Asked;
use std::alloc::Global;
use std::process::Abort;
use tenant_registry::changes::{added, retired};

/// The document of a tenant.
const GOOD: &str = "[[tenant]]
name = 'c'
[[tenant.tail_sampling.policy]]
type = 'always_sample'
";

/// The same with a key that no setting has.
const MISSPELT: &str = "[[tenant]]
name = 'c'
[tenant.tail_sampling]
decision_wait = '10s'
[[tenant.tail_sampling.policy]]
type = 'always_sample'
";

/// A document of two tenants.
const TWO: &str = "tenant = [
    { name = 'c', tail_sampling = { policy = [{ type = 'always_sample' }] } },
    { name = 'd', tail_sampling = { policy = [{ type = 'always_sample' }] } },
]";

/// What comes of the question, that document, the status and the content.
const ADDED: [(&str, &str, u16, &str); 13] = [
    ("added c 2\n", GOOD, 201, r#"{"tenant":"c"}"#),
    ("added c 2\n", MISSPELT, 201, WARNED),
    (
        "refused add 14\n",
        GOOD,
        409,
        r#"{"error":"a tenant of that name is present"}"#,
    ),
    ("refused add 15\n", GOOD, 422, TOO_MANY),
    (
        "refused add 13\n",
        TWO,
        422,
        r#"{"error":"the document doesn't have exactly one tenant"}"#,
    ),
    ("refused add 11\n", "", 422, FAULTY),
    ("refused add memory\n", GOOD, 503, ""),
    ("refused ad", GOOD, 503, ""),
    ("", GOOD, 503, ""),
    ("LATE", GOOD, 202, r#"{"state":"it is being done"}"#),
    ("ENDED", GOOD, 503, r#"{"error":"shutting down"}"#),
    (
        "BUSY",
        GOOD,
        503,
        r#"{"error":"another tenant is coming or going: try again"}"#,
    ),
    (
        "BUSY a",
        GOOD,
        503,
        r#"{"error":"the tenant a is going: try again"}"#,
    ),
];

const WARNED: &str =
    "{\"tenant\":\"c\",\"warnings\":\"# warning: tenant 1 (c), table tail_sampling: no setting has the key \
decision_wait, so it is ignored; perhaps decision_wait_ms was meant\"}";

const TOO_MANY: &str =
    r#"{"error":"there would be more tenants, or more spans at a time, than settings allow"}"#;

const FAULTY: &str =
    "{\"error\":\"settings fault 11 tenant\\u000athe document: the key tenant is missing\\u000a\
tenant may be: an array of 1 to 1000 tables, one for each tenant\"}";

/// What comes of the question about the tenant `a`, the status and the content.
const RETIRED: [(&str, u16, &str); 10] = [
    (REPORT, 200, WENT),
    ("", 404, r#"{"error":"unknown tenant"}"#),
    ("refused a 22\n", 404, r#"{"error":"unknown tenant"}"#),
    (
        "refused a 26\n",
        409,
        r#"{"error":"the tenant stays: it holds spans"}"#,
    ),
    ("refused ab 26\n", 503, ""),
    ("report a", 503, ""),
    ("LATE", 202, r#"{"state":"it is being done"}"#),
    ("ENDED", 503, r#"{"error":"shutting down"}"#),
    (
        "BUSY",
        503,
        r#"{"error":"another tenant is coming or going: try again"}"#,
    ),
    (
        "BUSY a",
        503,
        r#"{"error":"the tenant a is going: try again"}"#,
    ),
];

/// The last counters of a tenant of 77 spans, in places of 2 to 12, beside which 13 and 14 were left out.
const REPORT: &str =
    "report a accepted=77 undecided=2 pending=3 queued=4 active=5 exported=6 not_sampled=7 \
too_early=8 queue_full=9 retry_exhausted=10 back_end_refused=11 back_end_rejected=12 invalid=13 over_budget=14\n";

const WENT: &str =
    "{\"tenant\":\"a\",\"accepted\":77,\"undecided\":2,\"pending\":3,\"queued\":4,\"active\":5,\"exported\":6,\
\"not_sampled\":7,\"too_early\":8,\"queue_full\":9,\"retry_exhausted\":10,\"back_end_refused\":11,\
\"back_end_rejected\":12,\"invalid\":13,\"over_budget\":14}";

/// What comes of a question: in capitals that nothing was answered, and else the line that answers.
fn asked(rt: &impl Abort, alloc: Global, what: &str) -> Asked {
    match what {
        "LATE" => Asked::Late,
        "ENDED" => Asked::Ended,
        "BUSY" => Asked::Busy { going: None },
        "BUSY a" => Asked::Busy {
            going: Some(String::from_str(alloc, "a").expect(rt, "memory")),
        },
        line => Asked::Told(Vec::from_slice(alloc, line.as_bytes()).expect(rt, "memory")),
    }
}

/// Whether a reply has this status and content, which is JSON unless there is none.
fn is_wanted(reply: &Reply, status: u16, content: &str) -> bool {
    let media = if content.is_empty() {
        MediaType::Protobuf
    } else {
        MediaType::Json
    };
    is_told(reply, status, media, content)
}

/// Whoever posted the document is told this.
fn assert_told_of_coming(
    rt: &impl Abort,
    alloc: Global,
    what: &str,
    document: &str,
    status: u16,
    content: &str,
) {
    let asked = asked(rt, alloc, what);
    let reply = added(alloc, asked, document.as_bytes()).expect(rt, "memory");
    assert!(rt; is_wanted(&reply, status, content), "{what}");
}

#[test]
fn who_posts_a_document_is_told_what_came_of_it(rt: HostRuntime) {
    for (what, document, status, content) in ADDED {
        assert_told_of_coming(&rt, rt.alloc(), what, document, status, content);
    }
}

/// Whoever asked that the tenant `a` goes is told this.
fn assert_told_of_going(rt: &impl Abort, alloc: Global, what: &str, status: u16, content: &str) {
    let asked = asked(rt, alloc, what);
    let reply = retired(alloc, asked, "a").expect(rt, "memory");
    assert!(rt; is_wanted(&reply, status, content), "{what}");
}

#[test]
fn who_deletes_a_tenant_is_told_what_came_of_it(rt: HostRuntime) {
    for (what, status, content) in RETIRED {
        assert_told_of_going(&rt, rt.alloc(), what, status, content);
    }
}
