//! Who takes jobs from the lane, posts them and hands in the answers.
ghost use Rattle.std.specs.Prelude.{◌≡◌, ℕ, List, true};
ghost use Rattle.send_retry.specs.Class.{answer_view};
ghost use Rattle.export_edge.specs.Work.{posted, handed, Hands, Sending, PopsAt, Through, SendsBehind, SendsJob, looked, hand_calls};

use crate::back_end::BackEnd;
use crate::work::{AnswerRefused, AnswerSink, Beat};
use job_lane::{Job, Lane, LaneSeat};
use send_retry::Answer;
use std::sync::Wait;

/// Takes jobs from the lane until the work is over: posts each once, and hands in the answer to it once, under the
/// job's own tenant and ticket. It pauses where the lane is empty and where an answer isn't taken, and nowhere else.
pub fn run_sender<B: BackEnd, S: AnswerSink, T: Beat, R: Wait>(
    rt: &R,
    lane: &Lane,
    seat: &mut LaneSeat,
    back_end: &mut B,
    sink: &mut S,
    beat: &mut T,
)
    requires { seat.old.lane ≡ lane.now.name }
    ensures same { (seat.new.lane ≡ seat.old.lane) × (seat.new.pushes ≡ seat.old.pushes) }
    ensures work { (last : T) × (did : Sending B.posts S.takes S.refuses T.calls
        back_end.old back_end.new sink.old sink.new beat.old last seat.old.pops seat.new.pops)
        × T.calls last (looked true) beat.new × Through PopsAt seat.old did.rounds seat.new }
{
    'rounds: for _ in rt.forever() {
        if beat.is_over() {
            return;
        }
        send_once(rt, lane, seat, back_end, sink, beat);
    }
    unreachable!()
}

/// Sends the lane's first job, or pauses where there is none.
fn send_once<B: BackEnd, S: AnswerSink, T: Beat, R: Wait>(
    rt: &R,
    lane: &Lane,
    seat: &mut LaneSeat,
    back_end: &mut B,
    sink: &mut S,
    beat: &mut T,
)
    requires { seat.old.lane ≡ lane.now.name }
    ensures same { (seat.new.lane ≡ seat.old.lane) × (seat.new.pushes ≡ seat.old.pushes) }
    // Whatever was done before.
    ensures work { SendsBehind B.posts S.takes S.refuses T.calls back_end.old back_end.new
        sink.old sink.new beat.old beat.new seat.old seat.new }
{
    match lane.pop(rt, seat) {
        Some(job) => send(rt, back_end, sink, beat, &job),
        None => beat.pause(),
    }
}

/// Posts the job, and hands in the answer to it.
fn send<B: BackEnd, S: AnswerSink, T: Beat, R: Wait>(
    rt: &R,
    back_end: &mut B,
    sink: &mut S,
    beat: &mut T,
    job: &Job,
)
    ensures { SendsJob B.posts S.takes S.refuses T.calls job.now back_end.old back_end.new
        sink.old sink.new beat.old beat.new }
{
    let answer = back_end.post(job);
    hand_in(rt, sink, beat, job, &answer);
}

/// Hands in the answer to the job: again after a pause, at the moment that it then is, where it isn't taken.
fn hand_in<S: AnswerSink, T: Beat, R: Wait>(
    rt: &R,
    sink: &mut S,
    beat: &mut T,
    job: &Job,
    answer: &Answer,
)
    ensures { (refusals : List ℕ) × (now : ℕ)
        × Hands S.takes S.refuses sink.old
        (handed (posted job.now (answer_view answer.now)) refusals now) sink.new
        × Through T.calls beat.old (hand_calls refusals now) beat.new }
{
    'attempts: for _ in rt.forever() {
        let now = beat.now();
        match sink.answer(job.tenant, now, job.ticket, answer) {
            Ok(()) => return,
            Err(AnswerRefused) => beat.pause(),
        }
    }
    unreachable!()
}
