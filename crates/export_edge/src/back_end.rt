//! Who is sent jobs.
ghost use Rattle.send_retry.specs.Class.{answer_view};
ghost use Rattle.export_edge.specs.Work.{Posted, posted};

use job_lane::Job;
use send_retry::Answer;

/// Sends jobs to the tenants' back ends.
pub trait BackEnd {
    // From the first state the job is sent, that is what the back end says to it, and the second state is left.
    ghost posts: { Self → Posted → Self → Type 0 };

    /// Sends the job once, and waits for the answer. `Answer::Failed` where no whole answer came.
    fn post(&mut self, job: &Job) -> Answer
        ensures { posts self.old (posted job.now (answer_view result)) self.new };
}
