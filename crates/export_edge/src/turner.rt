//! Who makes turns and hands their jobs to the lane.
ghost use Rattle.std.specs.Prelude.{◌≡◌, ℕ, true, MatchOption, option_to_list};
ghost use Rattle.export_edge.specs.Work.{Turn, Turning, PushesAt, HadNoRoom, with_push, TurnsBehind, Through, jobs_in, job_of, looked, gave, paused, pause_after};

use crate::work::{Beat, JobSource, TurnResult};
use job_lane::{Job, Lane, LaneSeat};
use std::sync::Wait;

/// Makes turns until the work is over, each at the moment that it then is, and hands their jobs to the lane: in order,
/// each once. It pauses where a turn had nothing to do and where the lane is full, keeping the job meanwhile, and
/// nowhere else. The job that it has at the end comes back.
pub fn run_turner<S: JobSource, B: Beat, R: Wait>(
    rt: &R,
    lane: &Lane,
    seat: &mut LaneSeat,
    source: &mut S,
    beat: &mut B,
) -> Option<Job>
    requires { seat.old.lane ≡ lane.now.name }
    ensures same { (seat.new.lane ≡ seat.old.lane) × (seat.new.pops ≡ seat.old.pops) }
    ensures work { (last : B) × (did : Turning S.turns B.calls source.old source.new beat.old last
        seat.old.pushes seat.new.pushes result) × B.calls last (looked true) beat.new
        × Through (PushesAt lane.now.capacity) seat.old did.rounds seat.new }
{
    let mut held = None;
    'rounds: for _ in rt.forever() {
        if beat.is_over() {
            return held;
        }
        held = turn_once(rt, lane, seat, source, beat, held);
    }
    unreachable!()
}

/// Pushes the job that is held, or makes a turn where there is none. The job that is then held.
fn turn_once<S: JobSource, B: Beat, R: Wait>(
    rt: &R,
    lane: &Lane,
    seat: &mut LaneSeat,
    source: &mut S,
    beat: &mut B,
    held: Option<Job>,
) -> Option<Job>
    requires { seat.old.lane ≡ lane.now.name }
    ensures same { (seat.new.lane ≡ seat.old.lane) × (seat.new.pops ≡ seat.old.pops) }
    // Whatever was done before.
    ensures work { TurnsBehind S.turns B.calls lane.now.capacity source.old source.new
        beat.old beat.new seat.old seat.new held result }
{
    match held {
        Some(job) => offer(rt, lane, seat, beat, job),
        None => next_job(source, beat),
    }
}

/// Pushes the job. It comes back, after a pause, where the lane is full.
fn offer<B: Beat, R: Wait>(
    rt: &R,
    lane: &Lane,
    seat: &mut LaneSeat,
    beat: &mut B,
    job: Job,
) -> Option<Job>
    requires { seat.old.lane ≡ lane.now.name }
    ensures same { (seat.new.lane ≡ seat.old.lane) × (seat.new.pops ≡ seat.old.pops) }
    ensures pushed { MatchOption result ((n : ℕ) × (seat.new ≡ with_push seat.old (n, job)))
        (λ back. (back ≡ job) × (seat.new ≡ seat.old) × HadNoRoom lane.now.capacity seat.old) }
    ensures pauses { MatchOption result (beat.new ≡ beat.old)
        (λ _. B.calls beat.old paused beat.new) }
{
    match lane.push(rt, seat, job) {
        Ok(()) => None,
        Err(back) => {
            beat.pause();
            Some(back)
        }
    }
}

/// Makes a turn at the moment that it is, and pauses where there was nothing to do. The job that it gave, if it gave
/// one.
fn next_job<S: JobSource, B: Beat>(source: &mut S, beat: &mut B) -> Option<Job>
    ensures { (made : Turn) × S.turns source.old made source.new
        × (jobs_in made ≡ option_to_list result)
        × ((mid : B) × B.calls beat.old (gave made.now) mid
        × Through B.calls mid (pause_after made.came_to) beat.new) }
{
    let now = beat.now();
    let turned = source.turn(now);
    job_in(turned, beat)
}

/// The job that a turn gave, if it gave one. Pauses where there was nothing to do.
fn job_in<B: Beat>(turned: TurnResult, beat: &mut B) -> Option<Job>
    ensures job { job_of turned ≡ option_to_list result }
    ensures pauses { Through B.calls beat.old (pause_after turned) beat.new }
{
    match turned {
        TurnResult::Job(job) => Some(job),
        TurnResult::Worked => None,
        TurnResult::Idle => {
            beat.pause();
            None
        }
    }
}
