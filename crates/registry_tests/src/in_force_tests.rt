//! Settings in force under their lock, which a registrar changes and others look at.

ghost use Rattle.std.specs.Prelude.{◌≡◌, []};
ghost use Rattle.agreed_list.specs.Agreed.{half_of};
ghost use Rattle.tail_settings.specs.Settings.{settings_view};

use agreed_list::{AgreedList, Half};
use bytes::Bytes;
use export_edge::{Addresses, BackEnd};
use http::Method;
use http_edge::{Headers, HttpMessage};
use job_lane::Job;
use otlp_front::RouteRefusal;
use send_retry::Answer;
use service_runtime::Signals;
use std::alloc::Global;
use std::marker::Brand;
use std::process::Abort;
use std::sync::{Mutex, Wait};
use tail_settings::{Settings, SettingsFault, load};
use tenant_registry::{
    BackEnds, Change, ChangeList, Destination, InForce, Newcomer, Noted, Registrar, SettingsNaming,
    ToldBackEnd,
};

/// Two tenants, whose spans wait for at most 30,200 and 1,007 milliseconds until a batch has them.
const A_AND_B: &str = "tenant = [
    { name = 'a', endpoint = 'h:1', max_spans = 100, tail_sampling = { policy = [{ type = 'always_sample' }] } },
    { name = 'b', endpoint = 'h:2', max_spans = 200, batch = { timeout_ms = 7 },
      tail_sampling = { decision_wait_ms = 1000, policy = [{ type = 'always_sample' }] } },
]";

/// The document of another.
const C: &str = "[[tenant]]
name = 'c'
endpoint = 'h:3'
max_spans = 300
[[tenant.tail_sampling.policy]]
type = 'always_sample'
";

/// What is looked at once the tenant `c` has come and `a` has left.
#[derive(Clone, Copy)]
enum Look {
    Tenants,
    Messages,
    BackEnds,
    Answers,
}

/// Whether what is looked at is as it has to be.
fn holds<R: Eprint + Wait + Abort>(rt: &R, alloc: Global, look: Look) -> bool {
    let settings = load(alloc, A_AND_B).expect(rt, "good settings");
    let (list, own, other) = AgreedList::open(alloc).expect(rt, "memory");
    holds_named::<Brand, R>(rt, alloc, settings, list, own, other, look)
}

/// The same with a name for the settings and the list of their changes.
fn holds_named<J: SettingsNaming, R: Eprint + Wait + Abort>(
    rt: &R,
    alloc: Global,
    settings: Settings,
    list: AgreedList<Change>,
    own: Half<Change>,
    other: Half<Change>,
    look: Look,
) -> bool
    requires first { settings_view settings ≡ J.first }
    requires list { list ≡ J.list }
    requires own { own ≡ half_of J.list [] }
    requires other { other ≡ half_of J.list [] }
{
    let settings = Mutex::new(InForce::<J>::new(settings, Noted::<J>::new(other)));
    let list = ChangeList::<J>::new(list);
    let mut registrar = Registrar::new(rt, &settings, &list, Noted::<J>::new(own));
    let told = are_changed(alloc, &mut registrar);
    let seen = look_at(rt, alloc, &settings, look);
    told && seen
}

/// Whether settings to which `c` has come and which `a` has left are as they have to be.
fn look_at<J: SettingsNaming, R: Eprint + Wait + Abort>(
    rt: &R,
    alloc: Global,
    settings: &Mutex<InForce<J>>,
    look: Look,
) -> bool {
    match look {
        Look::Tenants => are_b_and_c(rt, alloc, &*settings.lock(rt)),
        Look::Messages => are_routed(rt, alloc, &*settings.lock(rt)),
        Look::BackEnds => are_addressed(rt, alloc, settings),
        Look::Answers => are_passed_on(rt, alloc, settings),
    }
}

/// Lets `c` in, which can't come again while it is present, and strikes `a`. Whether all is told as it has to be.
fn are_changed<J: SettingsNaming, R: Wait>(
    alloc: Global,
    registrar: &mut Registrar<'_, J, R>,
) -> bool {
    let first = registrar.newcomer(alloc, C);
    let second = registrar.newcomer(alloc, C);
    registrar.strike(0);
    is_c(&first) && is_taken(&second)
}

/// Whether the newcomer is `c`, as the third.
fn is_c(newcomer: &Result<Newcomer, SettingsFault>) -> bool {
    match newcomer {
        Ok(newcomer) => newcomer.number == 2
            && newcomer.name.as_str() == "c"
            && newcomer.section.max_spans == 300,
        Err(_) => false,
    }
}

/// Whether nobody came since the name is taken.
fn is_taken(newcomer: &Result<Newcomer, SettingsFault>) -> bool {
    match newcomer {
        Ok(_) => false,
        Err(fault) => fault.number() == Some(14),
    }
}

/// Whether `b` and `c` are the tenants, by number, section and list.
fn are_b_and_c<J: SettingsNaming>(rt: &impl Abort, alloc: Global, settings: &InForce<J>) -> bool {
    are_numbered(settings)
        && most_spans(rt, settings, 0) == 0
        && most_spans(rt, settings, 2) == 300
        && are_listed(rt, alloc, settings)
}

/// Whether `b` and `c` have their numbers and longest waits, and `a` has none.
fn are_numbered<J: SettingsNaming>(settings: &InForce<J>) -> bool {
    settings.number("a").is_none()
        && settings.number("b") == Some(1)
        && settings.number("c") == Some(2)
        && settings.longest_wait(0) == 0
        && settings.longest_wait(1) == 1_007
        && settings.longest_wait(2) == 30_200
}

/// The `max_spans` of the tenant of this number, 0 where there is none.
fn most_spans<J: SettingsNaming>(rt: &impl Abort, settings: &InForce<J>, tenant: u32) -> u32 {
    match settings.section(tenant).expect(rt, "memory") {
        Some(section) => section.max_spans,
        None => 0,
    }
}

/// Whether the list of tenants has `b` and then `c`.
fn are_listed<J: SettingsNaming>(rt: &impl Abort, alloc: Global, settings: &InForce<J>) -> bool {
    let tenants = settings.tenants(alloc).expect(rt, "memory");
    match tenants.as_slice() {
        [b, c] => b.number == 1
            && b.name.as_str() == "b"
            && c.number == 2
            && c.name.as_str() == "c",
        _ => false,
    }
}

#[test]
fn tenants_come_and_leave_by_a_registrar(rt: HostRuntime) {
    assert!(rt; holds(&rt, rt.alloc(), Look::Tenants));
}

/// A post of spans for the tenant of this name.
fn post(rt: &impl Abort, alloc: Global, tenant: &str) -> HttpMessage {
    let mut headers = Headers::new(alloc);
    headers
        .push(b"X-Scope-OrgID", tenant.as_bytes())
        .expect(rt, "memory");
    headers
        .push(b"Content-Type", b"application/x-protobuf")
        .expect(rt, "memory");
    HttpMessage {
        method: Method::POST,
        target: Vec::from_slice(alloc, b"/v1/traces").expect(rt, "memory"),
        headers,
        body: Vec::new(alloc),
    }
}

/// Whether posts for `b` and `c` go to them, each with its `max_spans`, and one for `a` to nobody.
fn are_routed<J: SettingsNaming>(rt: &impl Abort, alloc: Global, settings: &InForce<J>) -> bool {
    is_routed(rt, alloc, settings, "a", None)
        && is_routed(rt, alloc, settings, "b", Some((1, 200)))
        && is_routed(rt, alloc, settings, "c", Some((2, 300)))
}

/// Whether a post for a tenant of this name goes to the one with this number and `max_spans`; or, where there is none,
/// is refused for that name.
fn is_routed<J: SettingsNaming>(
    rt: &impl Abort,
    alloc: Global,
    settings: &InForce<J>,
    name: &str,
    wanted: Option<(u32, u32)>,
) -> bool {
    let message = post(rt, alloc, name);
    match settings.destination(&message).expect(rt, "memory") {
        Destination::To { tenant, section } => wanted == Some((tenant, section.max_spans))
            && settings.refusal(&message).is_none(),
        Destination::Nowhere(refusal) => wanted.is_none()
            && refusal == RouteRefusal::UnknownTenant
            && settings.refusal(&message) == Some(refusal),
    }
}

#[test]
fn messages_go_where_the_settings_in_force_say(rt: HostRuntime) {
    assert!(rt; holds(&rt, rt.alloc(), Look::Messages));
}

/// Whether the back ends of `b` and `c` are told, and none of `a`, and each question is counted as a job taken.
fn are_addressed<J: SettingsNaming, R: Wait + Abort>(
    rt: &R,
    alloc: Global,
    settings: &Mutex<InForce<J>>,
) -> bool {
    let signals = Signals::new(alloc, 1, 1, None).expect(rt, "memory");
    let tally = signals.tally();
    let back_ends = BackEnds {
        rt,
        settings,
        tally,
    };
    is_at(&back_ends, 0, None)
        && is_at(&back_ends, 1, Some("h:2"))
        && is_at(&back_ends, 2, Some("h:3"))
        && tally.counts().senders_busy == 3
}

/// Whether this is told to be the address of the tenant with this number.
fn is_at<A: Addresses>(addresses: &A, tenant: u32, wanted: Option<&str>) -> bool {
    match addresses.address(tenant) {
        Some(address) => wanted == Some(address.as_str()),
        None => wanted.is_none(),
    }
}

#[test]
fn senders_are_told_the_back_ends_of_tenants_in_force(rt: HostRuntime) {
    assert!(rt; holds(&rt, rt.alloc(), Look::BackEnds));
}

/// Answers each job with its ticket for a status, and counts the jobs.
#[derive(Drop)]
struct Tickets {
    alloc: Global,
    posted: u32,
}

impl BackEnd for Tickets {
    ghost posts = { λ _ _ _. Unit {0} };

    fn post(&mut self, job: &Job) -> Answer {
        self.posted = self.posted.saturating_add(1);
        Answer::Http {
            status: (job.ticket % 1000) as u16,
            retry_after: None,
            body: Vec::new(self.alloc),
        }
    }
}

/// Whether a job is posted once, and its answer handed back, by one that tells of answers and by one that doesn't. No
/// answer is one that standard error would be told of.
fn are_passed_on<J: SettingsNaming, R: Eprint + Wait>(
    rt: &R,
    alloc: Global,
    settings: &Mutex<InForce<J>>,
) -> bool {
    is_passed_on(rt, alloc, settings, true, 200) && is_passed_on(rt, alloc, settings, false, 503)
}

/// Whether a job of `b` is posted once, and answered with its ticket.
fn is_passed_on<J: SettingsNaming, R: Eprint + Wait>(
    rt: &R,
    alloc: Global,
    settings: &Mutex<InForce<J>>,
    is_verbose: bool,
    ticket: u64,
) -> bool {
    let mut told = ToldBackEnd {
        rt,
        alloc,
        settings,
        is_verbose,
        back_end: Tickets { alloc, posted: 0 },
    };
    let job = Job {
        tenant: 1,
        ticket,
        payload: Bytes::new(),
    };
    match told.post(&job) {
        Answer::Http { status, .. } => u64::from(status) == ticket && told.back_end.posted == 1,
        Answer::Failed => false,
    }
}

#[test]
fn a_job_is_posted_once_by_who_tells_of_answers(rt: HostRuntime) {
    assert!(rt; holds(&rt, rt.alloc(), Look::Answers));
}
