//! Which settings a thread's things are of.

use std::marker::Brand;

/// Names the settings at the start, and the list of the changes that were made of them, in the proofs alone. Whoever
/// lends them to threads picks its own.
pub trait SettingsNaming {
    ghost use Rattle.atomic_table.specs.Seated.{TableId};
    ghost use Rattle.tail_settings.specs.Settings.{SettingsData};

    // the settings at the start
    ghost first: { SettingsData };

    // the list of the changes that were made of them
    ghost list: { TableId };
}

impl SettingsNaming for Brand {
    ghost use Rattle.tenant_registry.specs.InForce.{no_settings};
    ghost use Rattle.tenant_registry.specs.Noted.{no_table};

    ghost first = { no_settings };

    ghost list = { no_table };
}
