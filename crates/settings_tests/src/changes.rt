//! Tenants that come to settings in force, and tenants that leave them.

use std::alloc::{AllocError, Global};
use std::process::Abort;
use tail_settings::{Document, MOST_QUEUE_BYTES, Section, Settings, SettingsFault, load};

const A_AND_B: &str =
    "tenant = [{ name = 'a', max_spans = 100, tail_sampling = { policy = [{ type = 'always_sample' }] } },
{ name = 'b', max_spans = 100, tail_sampling = { policy = [{ type = 'always_sample' }] } }]";

/// A document of one tenant.
const C: &str =
    "tenant = [{ name = 'c', max_spans = 100, tail_sampling = { policy = [{ type = 'always_sample' }] } }]";

/// A document of another.
const D: &str =
    "tenant = [{ name = 'd', max_spans = 200, tail_sampling = { policy = [{ type = 'always_sample' }] } }]";

/// Changes and what is told of each: the number of who comes, the `max_spans` of who leaves, or a fault.
const STORY: &str = "x = => settings fault 10
x = 1 => settings fault 11 tenant
tenant = 1 => settings fault 12 tenant
tenant = [] => settings fault 11 tenant
tenant = [1, 2] => settings fault 12 tenant
tenant = [{}, {}] => settings fault 13 tenant
tenant = [{}] => settings fault 11 name
tenant = [{ name = '' }] => settings fault 13 name
tenant = [{ name = 'a' }] => settings fault 14 a
tenant = [{ name = 'c' }] => settings fault 11 policy
tenant = [{ name = 'c', max_spans = 100, tail_sampling = { policy = [{ type = 'always_sample' }] } }] => 2
tenant = [{ name = 'c', max_spans = 100, tail_sampling = { policy = [{ type = 'always_sample' }] } }] => \
settings fault 14 c
strike 2 => 100
strike 2 => none
tenant = [{ name = 'c', max_spans = 100, tail_sampling = { policy = [{ type = 'always_sample' }] } }] => 3
strike 0 => 100
tenant = [{ name = 'a', max_spans = 2147483449, tail_sampling = { policy = [{ type = 'always_sample' }] } }] => \
settings fault 15
tenant = [{ name = 'a', max_spans = 2147483448, tail_sampling = { policy = [{ type = 'always_sample' }] } }] => 4
tenant = [{ name = 'd', max_spans = 1, tail_sampling = { policy = [{ type = 'always_sample' }] } }] => \
settings fault 15
strike 4 => 2147483448";

/// The same where a thousand tenants, each of one span, are present.
const A_THOUSAND: &str = "x = 1 => settings fault 11 tenant
tenant = [{}, {}] => settings fault 13 tenant
tenant = [{}] => settings fault 15
strike 999 => 1
tenant = [{}] => settings fault 11 name
tenant = [{ name = 'new', tail_sampling = { policy = [{ type = 'always_sample' }] } }] => 1000
tenant = [{}] => settings fault 15";

fn told_of_strike(alloc: Global, section: Option<Section>) -> Result<String, AllocError> {
    match section {
        Some(section) => format!(in alloc; "{}", section.max_spans),
        None => String::from_str(alloc, "none"),
    }
}

/// How the tenant of a text is admitted.
#[derive(Clone, Copy)]
enum Way {
    ByText,
    ByDocument,
}

fn admit(
    alloc: Global,
    settings: &mut Settings,
    way: Way,
    text: &str,
) -> Result<u32, SettingsFault> {
    match way {
        Way::ByText => settings.admit(alloc, text),
        Way::ByDocument => {
            let document = Document::parse(alloc, text)?;
            settings.admit_document(alloc, &document)
        }
    }
}

fn told_of_admission(
    alloc: Global,
    admission: Result<u32, SettingsFault>,
) -> Result<String, AllocError> {
    match admission {
        Ok(number) => format!(in alloc; "{number}"),
        Err(fault) => format!(in alloc; "{fault}"),
    }
}

/// Makes a change, and what is told of it.
fn told(
    alloc: Global,
    settings: &mut Settings,
    way: Way,
    change: &str,
) -> Result<String, AllocError> {
    match change.strip_prefix("strike ") {
        Some(number) => {
            let section = settings.strike(number.parse().unwrap_or(u32::MAX));
            told_of_strike(alloc, section)
        }
        None => {
            let admission = admit(alloc, settings, way, change);
            told_of_admission(alloc, admission)
        }
    }
}

/// Makes the changes of a story, a line each, up to the first of which something else is told.
fn first_wrong(
    alloc: Global,
    settings: &mut Settings,
    way: Way,
    story: &'static str,
) -> Result<&'static str, AllocError> {
    for line in story.lines() {
        let Some((change, wanted)) = line.split_once(" => ") else {
            return Ok(line);
        };
        let told = told(alloc, settings, way, change)?;
        if told.as_str() != wanted {
            return Ok(line);
        }
    }
    Ok("")
}

/// There are the tenants `b` and `c`, and nobody has the numbers of those who left.
fn are_b_and_c(settings: &Settings) -> bool {
    settings.tenants_len() == 2
        && settings.number("a").is_none()
        && settings.number("b") == Some(1)
        && settings.number("c") == Some(3)
        && settings.name(0).is_none()
        && settings.name(2).is_none()
        && settings.name(3) == Some("c")
        && settings.section(4).is_none()
}

#[test]
fn a_number_stays_with_its_tenant(rt: HostRuntime) {
    let mut settings = load(rt.alloc(), A_AND_B).expect(&rt, "good settings");
    let wrong = first_wrong(rt.alloc(), &mut settings, Way::ByText, STORY).expect(&rt, "memory");
    assert_eq!(rt; wrong, "");
    assert!(rt; are_b_and_c(&settings));
}

#[test]
fn a_document_is_admitted_as_its_text_is(rt: HostRuntime) {
    let mut settings = load(rt.alloc(), A_AND_B).expect(&rt, "good settings");
    let wrong = first_wrong(rt.alloc(), &mut settings, Way::ByDocument, STORY).expect(
        &rt, "memory",
    );
    assert_eq!(rt; wrong, "");
    assert!(rt; are_b_and_c(&settings));
}

/// The settings of `a` and `b` with the tenants of two documents, one behind the other.
fn with_both(rt: &impl Abort, alloc: Global, first: &Document, second: &Document) -> Settings {
    let mut settings = load(alloc, A_AND_B).expect(rt, "good settings");
    settings
        .admit_document(alloc, first)
        .expect(rt, "the first comes");
    settings
        .admit_document(alloc, second)
        .expect(rt, "the second comes");
    settings
}

/// The numbers of the tenants `c` and `d`.
fn numbers(settings: &Settings) -> (Option<u32>, Option<u32>) {
    (settings.number("c"), settings.number("d"))
}

/// Who is there isn't admitted again.
fn assert_c_is_there(rt: &impl Abort, alloc: Global, settings: &mut Settings, c: &Document) {
    let again = settings.admit_document(alloc, c);
    let told = told_of_admission(alloc, again).expect(rt, "memory");
    assert_eq!(rt; told.as_str(), "settings fault 14 c");
    assert_eq!(rt; settings.tenants_len(), 4);
}

#[test]
fn documents_are_admitted_in_any_order(rt: HostRuntime) {
    let c = Document::parse(rt.alloc(), C).expect(&rt, "a document");
    let d = Document::parse(rt.alloc(), D).expect(&rt, "a document");
    let settings = with_both(&rt, rt.alloc(), &c, &d);
    assert!(rt; numbers(&settings) == (Some(2), Some(3)));
    let mut settings = with_both(&rt, rt.alloc(), &d, &c);
    assert!(rt; numbers(&settings) == (Some(3), Some(2)));
    assert_c_is_there(&rt, rt.alloc(), &mut settings, &c);
}

fn tenant_text(alloc: Global, number: u32) -> Result<String, AllocError> {
    format!(in alloc;
        "{{ name = 't{number}', max_spans = 1, tail_sampling = {{ policy = [{{ type = 'always_sample' }}] }} }},\n"
    )
}

/// A document with so many tenants.
fn tenants_text(alloc: Global, count: u32) -> Result<String, AllocError> {
    let mut text = String::from_str(alloc, "tenant = [\n")?;
    for number in 0..count {
        let tenant = tenant_text(alloc, number)?;
        text.push_str(tenant.as_str())?;
    }
    text.push_str("]")?;
    Ok(text)
}

#[test]
fn at_most_a_thousand_are_present(rt: HostRuntime) {
    let text = tenants_text(rt.alloc(), 1000).expect(&rt, "memory");
    let mut settings = load(rt.alloc(), text.as_str()).expect(&rt, "good settings");
    let wrong = first_wrong(rt.alloc(), &mut settings, Way::ByText, A_THOUSAND);
    assert_eq!(rt; wrong.expect(&rt, "memory"), "");
}

/// What is told of a tenant with so many policies, in a document whose `global` is no table.
fn told_of_policies(
    alloc: Global,
    settings: &mut Settings,
    count: usize,
) -> Result<String, AllocError> {
    let policies = "{ type = 'always_sample' }, ".repeat(alloc, count)?;
    let text = format!(in alloc;
        "global = 1\ntenant = [{{ name = 'c', tail_sampling = {{ policy = [{policies}] }} }}]"
    )?;
    let admission = settings.admit(alloc, text.as_str());
    told_of_admission(alloc, admission)
}

#[test]
fn a_tenant_that_comes_has_at_most_64_policies(rt: HostRuntime) {
    let mut settings = load(rt.alloc(), A_AND_B).expect(&rt, "good settings");
    let told = told_of_policies(rt.alloc(), &mut settings, 65).expect(&rt, "memory");
    assert_eq!(rt; told.as_str(), "settings fault 15");
    let told = told_of_policies(rt.alloc(), &mut settings, 64).expect(&rt, "memory");
    assert_eq!(rt; told.as_str(), "2");
}

/// How many bytes the tenant with this number may have in batches that wait, none where there is no such tenant.
fn queue_bytes(settings: &Settings, number: u32) -> Option<u64> {
    let section = settings.section(number)?;
    Some(section.sending_queue.queue_bytes)
}

#[test]
fn queues_are_bounded(rt: HostRuntime) {
    let mut settings = load(rt.alloc(), A_AND_B).expect(&rt, "good settings");
    assert!(rt; queue_bytes(&settings, 1) == Some(MOST_QUEUE_BYTES));
    settings.bound_queues(1000);
    assert!(rt; settings.admit(rt.alloc(), C).expect(&rt, "c comes") == 2);
    for number in 0..3 {
        assert!(rt; queue_bytes(&settings, number) == Some(1000));
    }
    assert!(rt; settings.number("b") == Some(1));
    settings.bound_queues(u64::MAX);
    assert!(rt; queue_bytes(&settings, 2) == Some(MOST_QUEUE_BYTES));
}

fn is_copied(alloc: Global, section: &Section) -> Result<bool, AllocError> {
    let copy = section.copy()?;
    let told = format!(in alloc; "{section:?}")?;
    let copied = format!(in alloc; "{copy:?}")?;
    Ok(told.as_str() == copied.as_str())
}

#[test]
fn a_section_is_copied(rt: HostRuntime) {
    let settings = load(rt.alloc(), A_AND_B).expect(&rt, "good settings");
    let section = settings.section(1).expect(&rt, "a section");
    assert!(rt; is_copied(rt.alloc(), section).expect(&rt, "memory"));
}
