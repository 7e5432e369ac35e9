//! Laws over the definitions of what a tenant's part shows.

ghost use Rattle.tenant_stores.specs.Shows.{RoomIsMade, FirstIsShown, LengthsAre, KeysAreShown};

/// Room for one row more is a change of numbers: the first row that is present is no longer shown, a decided one before
/// one that waits, and a sound part stays sound.
pub fn room_is_made<N>()
    ensures { RoomIsMade N }
{}

/// The first row that waits is the one after those that are decided.
pub fn first_is_shown<N>()
    ensures { FirstIsShown N }
{}

/// As many rows are shown as the numbers say.
pub fn lengths_are<N>()
    ensures { LengthsAre N }
{}

/// Each key that a row or the list of spans that wait for a batch names has one span, which it shows.
pub fn keys_are_shown<N>()
    ensures { KeysAreShown N }
{}
