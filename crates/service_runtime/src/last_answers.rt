//! What tenants' back ends answered last, for the admin port.

ghost use Rattle.std.specs.Prelude.{◌≡◌};
ghost use Rattle.send_retry.specs.Class.{answer_view};
ghost use Rattle.service_runtime.specs.LastAnswers.{IsAnswered, answer_in, noted_of, word_of};

use admin_pages::LastAnswer;
use send_retry::Answer;
use std::alloc::{AllocError, Global};
use std::sync::atomic::{AtomicU64, Ordering};

/// So many words there are. A tenant's is the one at its number modulo this, and of a thousand that are present at a
/// time few have one in common: what the one's back end answered is told until the other's answers.
const WORDS: u32 = 16_384;

/// So many milliseconds a word has room for, which are two years. A later moment is noted as the last of these.
const MOMENTS: u64 = 1 << 36;

/// So many statuses a word has room for, with one that says that nothing was answered.
const STATUSES: u64 = 1_024;

/// What tenants' back ends answered last, with the moment. Each answer is one word, so nobody waits who notes one, and
/// no reader finds the status of one with the moment or the tenant of another.
#[derive(Drop)]
pub struct LastAnswers {
    words: Vec<AtomicU64>,
}

impl LastAnswers {
    /// Nobody has answered yet.
    pub(crate) fn new(alloc: Global) -> Result<LastAnswers, AllocError> {
        let mut words = Vec::with_capacity(alloc, WORDS as usize)?;
        for _ in 0..WORDS {
            words.push(AtomicU64::new(0))?;
        }
        Ok(LastAnswers { words })
    }

    /// This tenant's back end answered this, at this moment in milliseconds since the start.
    pub fn note(&self, tenant: u32, moment: u64, answer: &Answer) {
        if let Some(word) = self.word(tenant) {
            let noted = word_of(tenant, &last_answer(answer, moment));
            word.store(noted, Ordering::SeqCst);
        }
    }

    /// What this tenant's back end answered last. None where it has answered nothing yet, and where the back end of
    /// another tenant with the same word has answered since.
    pub fn answer_of(&self, tenant: u32) -> Option<LastAnswer>
        ensures { IsAnswered tenant result }
    {
        let word = match self.word(tenant) {
            Some(word) => word.load(Ordering::SeqCst),
            None => 0,
        };
        answer_in(tenant, word)
    }

    fn word(&self, tenant: u32) -> Option<&AtomicU64> {
        self.words.get((tenant % WORDS) as usize)
    }
}

/// What is noted of an answer that came at this moment.
fn last_answer(answer: &Answer, moment: u64) -> LastAnswer
    ensures { result ≡ noted_of (answer_view answer.now) moment }
{
    let status = match answer {
        Answer::Http { status, .. } => *status,
        Answer::Failed => 0,
    };
    LastAnswer { status, moment }
}

/// A tenant's answer as a word.
fn word_of(tenant: u32, answer: &LastAnswer) -> u64
    ensures { result ≡ word_of tenant answer.now }
{
    let moment = answer.moment.min(MOMENTS - 1);
    let status = u64::from(answer.status).min(STATUSES - 2);
    (u64::from(tenant / WORDS) * MOMENTS + moment) * STATUSES + status + 1
}

/// What a word tells of this tenant.
fn answer_in(tenant: u32, word: u64) -> Option<LastAnswer>
    ensures { result ≡ answer_in tenant word }
{
    let status = word % STATUSES;
    let rest = word / STATUSES;
    if 0 < status && rest / MOMENTS == u64::from(tenant / WORDS) {
        Some(LastAnswer {
            status: (status - 1) as u16,
            moment: rest % MOMENTS,
        })
    } else {
        None
    }
}
