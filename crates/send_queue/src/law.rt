//! What was offered can be taken back.

ghost use Rattle.std.specs.Prelude.{◌≡◌, false, Some};
ghost use Rattle.send_queue.specs.Sender.{BatchData, SenderData, is_full, offered, newest, taken_back};

/// A batch that was offered and taken is what [`crate::SendQueue::undo_offer`] gives back, and then the sender is as it
/// was. So a step that is refused memory takes back what it offered, the latest first.
pub fn offers_are_undone()
    ensures batch { (batch : BatchData) (sender : SenderData) → is_full batch sender ≡ false →
        newest (offered batch sender).queue ≡ Some batch }
    ensures rest { (batch : BatchData) (sender : SenderData) → is_full batch sender ≡ false →
        taken_back (offered batch sender) ≡ sender }
{}
