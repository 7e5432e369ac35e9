//! What is doubtful in settings that are good.

ghost use Rattle.std.specs.Prelude.{◌≡◌, ◌++◌, map, IfOk, OnOk, option_copied, string_bytes};
ghost use Rattle.std.specs.Str.{bytes_eq};
ghost use Rattle.tail_settings.specs.Batch.{batch_view};
ghost use Rattle.tail_settings.specs.Policy.{leaf_view, policy_view};
ghost use Rattle.tail_settings.specs.RetryOnFailure.{retry_view};
ghost use Rattle.tail_settings.specs.Section.{section_view};
ghost use Rattle.tail_settings.specs.Settings.{settings_view};
ghost use Rattle.settings_check.specs.Doubts.{address_line, endpoint_line, receivers_line, consumers_of, senders_line, has_purpose, header_line, own_line, is_grpc_port, grpc_line, spans_line, least_delay, retry_line, bounds_line, leaf_lines, policy_lines, lines_of_policies, tenant_lines, lines_of_tenants, doubts_of};

use crate::address::{address_fault, behind_colon};
use crate::shown::shown;
use crate::unknown::joined;
use std::alloc::{AllocError, Global};
use tail_settings::{Batch, LeafPolicy, PolicySpec, RetryOnFailure, Section, Settings};

/// The line of a text that can't be an address, behind the words of whose address it is to be; nothing of any other.
fn address_line(alloc: Global, place: &str, address: &str) -> Result<String, AllocError>
    ensures { IfOk result (λ line. string_bytes line ≡ address_line place.now address.now) }
{
    match address_fault(address.as_bytes()) {
        Some(wrong) => {
            let line = format!(in alloc; "warning: {place} {address} {wrong}\n")?;
            Ok(line)
        }
        None => Ok(String::new(alloc)),
    }
}

/// The line of fewer receivers than tenants.
fn receivers_line(alloc: Global, receivers: u32, tenants: u32) -> Result<String, AllocError>
    ensures { IfOk result (λ line. string_bytes line ≡ receivers_line receivers tenants) }
{
    if tenants <= receivers {
        return Ok(String::new(alloc));
    }
    let line = format!(in alloc;
        "warning: table global: receivers is {receivers}, and there are {tenants} tenants: each client that keeps its \
         connection keeps a receiver\n"
    )?;
    Ok(line)
}

/// How many consumers the tenants have together.
fn consumers(settings: &Settings) -> u64
    ensures { result ≡ consumers_of (settings_view settings.now).tenants }
{
    settings
        .tenants
        .values()
        .map(|tenant| u64::from(tenant.section.sending_queue.num_consumers))
        .sum()
}

/// The line of fewer senders than consumers.
fn senders_line(alloc: Global, senders: u32, consumers: u64) -> Result<String, AllocError>
    ensures { IfOk result (λ line. string_bytes line ≡ senders_line senders consumers) }
{
    if consumers <= u64::from(senders) {
        return Ok(String::new(alloc));
    }
    let line = format!(in alloc;
        "warning: table global: senders is {senders}, and the tenants' num_consumers are {consumers} together: back \
         ends that don't answer can keep every sender\n"
    )?;
    Ok(line)
}

/// Whether the service reads a header field for another purpose than a tenant's name.
fn has_purpose(field: &str) -> bool
    ensures { result ≡ has_purpose field.now }
{
    matches!(
        field,
        "connection"
            | "content-encoding"
            | "content-length"
            | "content-type"
            | "expect"
            | "host"
            | "transfer-encoding"
    )
}

/// The line of a field for the tenant's name that is there for another purpose.
fn header_line(alloc: Global, field: &str) -> Result<String, AllocError>
    ensures { IfOk result (λ line. string_bytes line ≡ header_line field.now) }
{
    if !has_purpose(field) {
        return Ok(String::new(alloc));
    }
    let line = format!(in alloc;
        "warning: table global: tenant_header is {field}, which a request has for another purpose: hardly any can name \
         a tenant by it\n"
    )?;
    Ok(line)
}

/// The line of a tenant's back end.
fn endpoint_line(alloc: Global, name: &str, endpoint: &str) -> Result<String, AllocError>
    ensures { IfOk result (λ line. string_bytes line ≡ endpoint_line name.now endpoint.now) }
{
    let place = format!(in alloc; "tenant {name}: endpoint")?;
    address_line(alloc, place.as_str(), endpoint)
}

/// The line of a tenant that may hold fewer spans than a batch is cut at.
fn spans_line(alloc: Global, name: &str, max_spans: u32, batch: Batch) -> Result<String, AllocError>
    ensures { IfOk result (λ line. string_bytes line
        ≡ spans_line name.now max_spans (batch_view batch)) }
{
    let size = batch.send_batch_size;
    if size <= max_spans || batch.timeout == 0 {
        return Ok(String::new(alloc));
    }
    let line = format!(in alloc;
        "warning: tenant {name}: max_spans is {max_spans}, and send_batch_size is {size}: a batch is cut by timeout_ms \
         alone, and posts can get 429 until then\n"
    )?;
    Ok(line)
}

/// Whether two texts are the same.
fn is_same(left: &str, right: &str) -> bool
    ensures { result ≡ bytes_eq left.now right.now }
{
    left == right
}

/// The line of a tenant whose back end is this service itself.
fn own_line(alloc: Global, listen: &str, name: &str, endpoint: &str) -> Result<String, AllocError>
    ensures { IfOk result (λ line. string_bytes line ≡ own_line listen.now name.now endpoint.now) }
{
    if !is_same(endpoint, listen) {
        return Ok(String::new(alloc));
    }
    let line = format!(in alloc;
        "warning: tenant {name}: endpoint is {endpoint}, as listen is: the service would post to itself\n"
    )?;
    Ok(line)
}

/// Whether what stands behind an address's last colon is the port of OTLP over gRPC.
fn is_grpc_port(port: Option<&[u8]>) -> bool
    ensures { result ≡ is_grpc_port (option_copied port.entry) }
{
    match port {
        Some(port) => port == b"4317".as_slice(),
        None => false,
    }
}

/// The line of a tenant whose back end is at the port of OTLP over gRPC.
fn grpc_line(alloc: Global, name: &str, endpoint: &str) -> Result<String, AllocError>
    ensures { IfOk result (λ line. string_bytes line ≡ grpc_line name.now endpoint.now) }
{
    if !is_grpc_port(behind_colon(endpoint.as_bytes())) {
        return Ok(String::new(alloc));
    }
    let line = format!(in alloc;
        "warning: tenant {name}: endpoint is {endpoint}, whose port is that of OTLP over gRPC: batches are posted by \
         HTTP, for which it is 4318\n"
    )?;
    Ok(line)
}

/// The shortest delay before a batch is sent again, in milliseconds.
fn least_delay(retry: RetryOnFailure) -> u64
    ensures { result ≡ least_delay (retry_view retry) }
{
    retry.initial_interval - retry.initial_interval * u64::from(retry.randomization_factor) / 1000
}

/// The line of a tenant whose batches are given up before the shortest delay is over.
fn retry_line(alloc: Global, name: &str, retry: RetryOnFailure) -> Result<String, AllocError>
    ensures { IfOk result (λ line. string_bytes line ≡ retry_line name.now (retry_view retry)) }
{
    let longest = retry.max_elapsed_time;
    let least = least_delay(retry);
    if longest <= 1 || least <= longest {
        return Ok(String::new(alloc));
    }
    let line = format!(in alloc;
        "warning: tenant {name}: max_elapsed_time_ms is {longest}, and the delay before a retry is at least {least} \
         ms: no batch is sent again\n"
    )?;
    Ok(line)
}

/// The line of a policy whose bounds no number lies within; nothing of any other.
fn bounds_line(alloc: Global, name: &str, leaf: &LeafPolicy) -> Result<String, AllocError>
    ensures { IfOk result (λ line. string_bytes line ≡ bounds_line name.now (leaf_view leaf.now)) }
{
    let LeafPolicy::NumericAttribute {
        key,
        min_value,
        max_value,
    } = leaf
    else {
        return Ok(String::new(alloc));
    };
    if *min_value <= *max_value {
        return Ok(String::new(alloc));
    }
    let key = shown(alloc, key.as_str())?;
    let line = format!(in alloc;
        "warning: tenant {name}: the numeric_attribute policy of the key {key} has a min_value above its max_value: it \
         keeps nothing\n"
    )?;
    Ok(line)
}

/// The lines of policies that hold no others.
fn leaf_lines(alloc: Global, name: &str, leaves: &[LeafPolicy]) -> Result<String, AllocError>
    ensures { IfOk result (λ lines. string_bytes lines
        ≡ leaf_lines name.now (map leaf_view leaves.now)) }
{
    let mut lines = String::new(alloc);
    for leaf in leaves {
        let line = bounds_line(alloc, name, leaf)?;
        lines.push_str(line.as_str())?;
    }
    Ok(lines)
}

/// The lines of a policy and of those that it holds.
fn policy_lines(alloc: Global, name: &str, policy: &PolicySpec) -> Result<String, AllocError>
    ensures { IfOk result (λ lines. string_bytes lines
        ≡ policy_lines name.now (policy_view policy.now)) }
{
    match policy {
        PolicySpec::Leaf(leaf) => bounds_line(alloc, name, leaf),
        PolicySpec::And(leaves) => leaf_lines(alloc, name, leaves.as_slice()),
    }
}

/// The lines of policies.
fn lines_of_policies(
    alloc: Global,
    name: &str,
    policies: &[PolicySpec],
) -> Result<String, AllocError>
    ensures { IfOk result (λ lines. string_bytes lines
        ≡ lines_of_policies name.now (map policy_view policies.now)) }
{
    let mut lines = String::new(alloc);
    for policy in policies {
        let more = policy_lines(alloc, name, policy)?;
        lines.push_str(more.as_str())?;
    }
    Ok(lines)
}

/// The lines of a tenant.
fn tenant_lines(
    alloc: Global,
    listen: &str,
    name: &str,
    section: &Section,
) -> Result<String, AllocError>
    ensures { IfOk result (λ lines. string_bytes lines
        ≡ tenant_lines listen.now name.now (section_view section.now)) }
{
    let endpoint = endpoint_line(alloc, name, section.endpoint.as_str())?;
    let own = own_line(alloc, listen, name, section.endpoint.as_str())?;
    let grpc = grpc_line(alloc, name, section.endpoint.as_str())?;
    let spans = spans_line(alloc, name, section.max_spans, section.batch)?;
    let retry = retry_line(alloc, name, section.retry_on_failure)?;
    let hosts = joined(alloc, endpoint.as_str(), own.as_str())?;
    let addresses = joined(alloc, hosts.as_str(), grpc.as_str())?;
    let head = joined(alloc, addresses.as_str(), spans.as_str())?;
    let numbers = joined(alloc, head.as_str(), retry.as_str())?;
    let policies = lines_of_policies(alloc, name, section.tail_sampling.policies.as_slice())?;
    let lines = joined(alloc, numbers.as_str(), policies.as_str())?;
    Ok(lines)
}

/// Appends the lines of the tenants.
fn put_tenant_lines(alloc: Global, out: &mut String, settings: &Settings) -> Result<(), AllocError>
    ensures { OnOk result (string_bytes out.new ≡ string_bytes out.old
        ++ lines_of_tenants (settings_view settings.now).global.listen
        (settings_view settings.now).tenants) }
{
    let listen = settings.global.listen.as_str();
    'tenants: for (name, tenant) in settings.tenants.iter() {
        let lines = tenant_lines(alloc, listen, name.as_str(), &tenant.section)?;
        out.push_str(lines.as_str())?;
    }
    Ok(())
}

/// What is doubtful in settings: they load, and most likely won't do what was meant. A line for each doubt.
pub fn doubts(alloc: Global, settings: &Settings) -> Result<String, AllocError>
    ensures { IfOk result (λ lines. string_bytes lines ≡ doubts_of (settings_view settings.now)) }
{
    let global = &settings.global;
    let listen = address_line(alloc, "table global: listen", global.listen.as_str())?;
    let receivers = receivers_line(alloc, global.receivers, settings.tenants_len())?;
    let senders = senders_line(alloc, global.senders, consumers(settings))?;
    let header = header_line(alloc, global.tenant_header.as_str())?;
    let head = joined(alloc, listen.as_str(), receivers.as_str())?;
    let counts = joined(alloc, head.as_str(), senders.as_str())?;
    let mut lines = joined(alloc, counts.as_str(), header.as_str())?;
    put_tenant_lines(alloc, &mut lines, settings)?;
    Ok(lines)
}
