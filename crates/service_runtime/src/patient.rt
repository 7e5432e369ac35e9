//! Back ends that are posted to once there is memory for a post.

ghost use Rattle.std.specs.Prelude.{◌≡◌};

use crate::beat::Signals;
use crate::teller::Teller;
use export_edge::BackEnd;
use job_lane::Job;
use send_retry::Answer;
use std::alloc::Global;
use std::sync::Wait;
use std::thread;
use std::time::{Clock, Duration};

/// A post and its answer hardly ever take more bytes than these, beside the job's own.
const ROOM: usize = 32_768;

/// So many milliseconds at most is waited for them.
const MOST: u32 = 1_000;

/// Posts a job once there is memory for that, so that a want of memory that passes within a second is no failed post.
#[derive(Drop)]
pub struct PatientBackEnd<'h, B, R> {
    rt: &'h R,
    alloc: Global,
    teller: Teller<'h, R>,
    back_end: B,
}

impl<'h, B: BackEnd, R: Wait + Clock> PatientBackEnd<'h, B, R> {
    /// Posts to this back end.
    pub fn new(
        rt: &'h R,
        alloc: Global,
        signals: &'h Signals,
        back_end: B,
    ) -> PatientBackEnd<'h, B, R>
        ensures { result.back_end ≡ back_end }
    {
        PatientBackEnd {
            rt,
            alloc,
            teller: Teller::new(rt, signals),
            back_end,
        }
    }
}

impl<'h, B: BackEnd, R: Wait + Clock> BackEnd for PatientBackEnd<'h, B, R> {
    // Each job is posted once to the back end behind it.
    ghost posts = { λ old p new. B.posts old.back_end p new.back_end };

    fn post(&mut self, job: &Job) -> Answer {
        await_memory(self.rt, self.alloc, &mut self.teller);
        self.back_end.post(job)
    }
}

/// Waits until there is memory for a post, or for a second. Meanwhile the reserve is given up.
fn await_memory<R: Wait + Clock>(rt: &R, alloc: Global, teller: &mut Teller<'_, R>) {
    for _ in 0..MOST {
        if Vec::<u8>::with_capacity(alloc, ROOM).is_ok() {
            break;
        }
        teller.want();
        thread::sleep(rt, Duration::from_millis(1));
    }
    teller.sate();
}
