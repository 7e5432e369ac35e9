//! Who makes lines to back ends, and a job's way to its own tenant's.
ghost use Rattle.std.specs.Prelude.{◌≡◌, ℕ, List, Option};
ghost use Rattle.send_retry.specs.Class.{answer_view};
ghost use Rattle.export_edge.specs.Work.{posted};
ghost use Rattle.export_edge.specs.Dialing.{JobComesTo};

use crate::addresses::Addresses;
use crate::back_end::BackEnd;
use crate::posting::post_over;
use http_line::Line;
use job_lane::Job;
use send_retry::Answer;
use std::alloc::Global;

/// Makes lines to back ends, and takes them back.
pub trait Dial {
    /// A line to a back end. It needn't be `Drop`: who was given one can't let it go, and hands it back.
    type Connection: Line;

    // From the first state this address is dialed, this line comes of it, or none, and the second state is left.
    ghost dials: { Self → List ℕ → Option Self.Connection → Self → Type 0 };

    // In the first state this line is given up, in its last state, and the second state is left.
    ghost hangs_up: { Self → Self.Connection → Self → Type 0 };

    /// A new line to a host and a port. None where none comes about.
    fn dial(&mut self, address: &str) -> Option<Self::Connection>
        ensures { dials self.old address.now result self.new };

    /// Gives up a line: a connection is closed.
    fn hang_up(&mut self, line: Self::Connection)
        ensures { hangs_up self.old line self.new };
}

/// Posts a job over a line of its own to its tenant's address, and hangs up. It fails where there is no address, no
/// line comes about, or no whole answer comes.
pub fn post_job<A: Addresses, D: Dial>(
    alloc: Global,
    dialer: &mut D,
    addresses: &A,
    job: &Job,
) -> Answer
    ensures { JobComesTo A.tells D.dials D.hangs_up D.Connection.gives D.Connection.takes
        D.Connection.ends D.Connection.failed addresses.now dialer.old dialer.new
        (posted job.now (answer_view result)) }
{
    let Some(address) = addresses.address(job.tenant) else {
        return Answer::Failed;
    };
    let host = address.as_str();
    let Some(mut line) = dialer.dial(host) else {
        return Answer::Failed;
    };
    let answer = post_over(alloc, &mut line, host, job.payload.as_slice());
    dialer.hang_up(line);
    answer
}

/// Posts each job over a line of its own to its tenant's address. It waits for as long as the line does.
#[derive(Drop)]
pub struct DialingBackEnd<A, D> {
    dialer: D,
    alloc: Global,
    /// Where tenants' back ends are: hosts with ports, as they also stand in `Host`.
    addresses: A,
}

impl<A: Addresses, D: Dial> DialingBackEnd<A, D> {
    /// Posts to these addresses.
    pub fn over(dialer: D, alloc: Global, addresses: A) -> DialingBackEnd<A, D>
        ensures dialer { result.dialer ≡ dialer }
        ensures addresses { result.addresses ≡ addresses }
    {
        DialingBackEnd {
            dialer,
            alloc,
            addresses,
        }
    }
}

impl<A: Addresses, D: Dial> BackEnd for DialingBackEnd<A, D> {
    ghost use Rattle.std.specs.Prelude.{◌≡◌};
    ghost use Rattle.export_edge.specs.Dialing.{JobComesTo};

    // Each job goes to its own tenant's address, and who tells the addresses stays.
    ghost posts = { λ old p new. (new.addresses ≡ old.addresses)
        × JobComesTo A.tells D.dials D.hangs_up D.Connection.gives D.Connection.takes D.Connection.ends
        D.Connection.failed old.addresses old.dialer new.dialer p };

    fn post(&mut self, job: &Job) -> Answer {
        post_job(self.alloc, &mut self.dialer, &self.addresses, job)
    }
}
