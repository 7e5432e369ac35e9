//! What an operator may be told of a service's course.

/// A stage of a service's course.
#[derive(Clone, Copy, PartialEq, Eq, Debug)]
pub enum Stage<'n> {
    /// All threads are there, and connections are served.
    Serving,
    /// A line of the input asks for nothing: it names no tenant that is present, or is no command. These are its first
    /// bytes, as far as they are kept.
    Skipped { line: &'n [u8] },
    /// The input has ended, or failed: tenants take no more spans and send what they hold.
    Draining,
    /// It waits until the tenant of this name holds no span, and then for others that hold some.
    Sending { name: &'n str },
    /// No tenant holds a span and the reports are written: it waits for connections that are still served.
    Closing,
    /// All threads have ended.
    Ended,
}

/// Is told of each stage as it begins. What it does with it is its own: nothing is promised of it.
pub trait Observer {
    fn observe(&mut self, stage: Stage<'_>);
}
