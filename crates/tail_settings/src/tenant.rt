//! A tenant of the settings.

ghost use Rattle.std.specs.Prelude.{◌≡◌, ◌≤◌};
ghost use Rattle.tail_settings.specs.QueueBytes.{bounded_section};
ghost use Rattle.tail_settings.specs.Section.{section_view};
ghost use Rattle.tail_settings.specs.SendingQueue.{most_queue_bytes};

use crate::section::Section;

/// A tenant, which has its name in the settings.
#[derive(Debug, Drop)]
pub struct Tenant {
    /// The number by which the tenant goes. No other tenant had it or gets it.
    pub number: u32,
    /// What the tenant's table says beside its name.
    pub section: Section,
}

impl Tenant {
    /// Bounds the bytes that the batches of the tenant have together while they wait.
    pub(crate) fn bound_queue(&mut self, bytes: u64)
        requires { bytes ≤ most_queue_bytes }
        ensures section { section_view self.new.section ≡ bounded_section bytes
            (section_view self.old.section) }
        ensures number { self.new.number ≡ self.old.number }
        ensures spans { self.new.section.max_spans ≡ self.old.section.max_spans }
    {
        self.section.sending_queue.queue_bytes = bytes;
    }
}
