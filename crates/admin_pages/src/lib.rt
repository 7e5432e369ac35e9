//! What an operator is shown of a service: pages over plain figures.
//!
//! [`admin_route`] says what a request asks for, and the others spell what it is answered: a tenant's figures in JSON
//! or in a report's line, the service's, the settings in force, and all of them as metrics. Each is the text that
//! `specs/` has of the figures. Names of metrics are by the conventions of OpenMetrics 1.0, and JSON is RFC 8259's
//! (docs/OPERATING.md, docs/RUNBOOK.md).
//!
//! It stands on `tail_settings` for the settings that it shows and, in `specs/`, on `drop_ledger` for what a tenant's
//! counters are; numbers are spelled by the library's `itoa`.
#![tactic(auto)]

ghost use Rattle.admin_pages.specs.Law.{EachHasItsName, EachHasItsWord, NamesAreUnique, NamesShowKinds, ServiceHelpsArePlain, TenantHelpsArePlain, TenantsAreRead, TenantsAreRetired};

mod figures;
mod json;
mod metrics;
mod report;
mod route;
mod service;
mod settings;
mod status;
mod tenant_metric;
mod token;

pub use crate::figures::{LastAnswer, TenantFigures, TenantUsage};
pub use crate::json::{put_gone, put_string, put_tenant, put_tenants};
pub use crate::metrics::{Sample, put_measure, put_measures, put_tenant_metrics};
pub use crate::report::read_report;
pub use crate::route::{AdminRoute, admin_route};
pub use crate::service::{ServiceCounts, ServiceFigures, StatusCounts, put_service};
pub use crate::settings::put_settled_tenant;
pub use crate::status::{CLASS_COUNTS, STATUS_COUNTS, class_place, status_place};
pub use crate::tenant_metric::{MetricKind, TenantMetric};
pub use crate::token::same_token;

/// A tenant's figures are asked for by GET or HEAD at `/tenants/` with its name of a byte or more behind it, and that
/// it goes by DELETE there, and by nothing else: a law over the definitions.
pub fn tenants_are_asked_for()
    ensures figures { TenantsAreRead }
    ensures retired { TenantsAreRetired }
{}

/// Each figure of a tenant is told once, by a word and under a metric's name that no other has: a law over the
/// definitions.
pub fn each_figure_is_told_once()
    ensures words { EachHasItsWord }
    ensures names { EachHasItsName }
{}

/// Each family of metrics on the page of tenants and service has a name of its own, which ends in `_total` exactly
/// where it is a counter's: a law over the definitions.
pub fn names_are_unique()
    ensures unique { NamesAreUnique }
    ensures kinds { NamesShowKinds }
{}

/// No help text on that page has a line feed or a backslash, so each stands in its line as it is: a law over the
/// definitions.
pub fn helps_need_no_escape()
    ensures tenants { TenantHelpsArePlain }
    ensures service { ServiceHelpsArePlain }
{}
