//! Which changes the settings in force came of, as contracts know it: one list, of which who changes settings has a
//! half, and the settings have the other.

ghost use Rattle.std.specs.Prelude.{◌≡◌, [], ◌∷◌, ◌++◌};
ghost use Rattle.agreed_list.specs.Agreed.{half_of};
ghost use Rattle.tail_settings.specs.Change.{admit, strike};

use crate::naming::SettingsNaming;
use agreed_list::{AgreedList, Half, More};
use std::collections::LinkedList;
use std::marker::{Model, PhantomData};

/// A change: the tenant of a document of this text was let in, or the one with this number was struck. No value of it
/// is made: a `LinkedList` is a list in contracts.
pub enum Change {
    Admit(LinkedList<u8>),
    Strike(u32),
}

/// Adds nothing.
struct Agrees;

impl More<(), Change> for Agrees {
    ghost use Rattle.std.specs.Prelude.{[]};

    ghost more = { λ _. [] };
}

/// Adds an admission.
struct Admits;

impl<'t> More<&'t str, Change> for Admits {
    ghost use Rattle.std.specs.Prelude.{[], ◌∷◌};
    ghost use Rattle.tenant_registry.specs.declared.noted.Change.TheVariants.{Admit};

    ghost more = { λ text. Admit text.now ∷ [] };
}

/// Adds a striking.
struct Strikes;

impl More<u32, Change> for Strikes {
    ghost use Rattle.std.specs.Prelude.{[], ◌∷◌};
    ghost use Rattle.tenant_registry.specs.declared.noted.Change.TheVariants.{Strike};

    ghost more = { λ number. Strike number ∷ [] };
}

/// A half of the list. Contracts see it as the changes that were made, in their order.
#[derive(Drop)]
pub struct Noted<J: SettingsNaming> {
    half: Half<Change>,
    of: PhantomData<J>,
}

impl<J: SettingsNaming> Model for Noted<J> {
    ghost use Rattle.std.specs.Prelude.{◌≡◌, List};
    ghost use Rattle.tail_settings.specs.Change.{Change};
    ghost use Rattle.tenant_registry.specs.Noted.{changes_in};

    ghost Value = { List Change };

    ghost view = { λ n. changes_in n.half };

    ghost invariant = { λ n. n.half.list ≡ J.list };
}

impl<J: SettingsNaming> Noted<J> {
    /// No change was made.
    pub fn new(half: Half<Change>) -> Noted<J>
        requires { half ≡ half_of J.list [] }
        ensures { result ≡ [] }
    {
        Noted {
            half,
            of: PhantomData,
        }
    }
}

/// The list. It takes no memory but one word.
#[derive(Drop)]
pub struct ChangeList<J: SettingsNaming> {
    list: AgreedList<Change>,
    of: PhantomData<J>,
    ghost named: { list ≡ J.list },
}

impl<J: SettingsNaming> ChangeList<J> {
    /// The one that is named so.
    pub fn new(list: AgreedList<Change>) -> ChangeList<J>
        requires { list ≡ J.list }
    {
        ChangeList {
            list,
            of: PhantomData,
        }
    }

    /// Both know the same changes.
    pub(crate) fn agree(&self, own: &mut Noted<J>, other: &mut Noted<J>)
        ensures same { own.old ≡ other.old }
        ensures own { own.new ≡ other.old }
        ensures other { other.new ≡ other.old }
    {
        self.list
            .meet::<(), Agrees>(&mut own.half, &mut other.half, &());
    }

    /// The tenant of a document of this text was let in.
    pub(crate) fn admit(&self, own: &mut Noted<J>, other: &mut Noted<J>, text: &str)
        ensures same { own.old ≡ other.old }
        ensures own { own.new ≡ other.old ++ admit text.now ∷ [] }
        ensures other { other.new ≡ other.old ++ admit text.now ∷ [] }
    {
        self.list
            .meet::<&str, Admits>(&mut own.half, &mut other.half, &text);
    }

    /// The tenant with this number was struck.
    pub(crate) fn strike(&self, own: &mut Noted<J>, other: &mut Noted<J>, number: u32)
        ensures same { own.old ≡ other.old }
        ensures own { own.new ≡ other.old ++ strike number ∷ [] }
        ensures other { other.new ≡ other.old ++ strike number ∷ [] }
    {
        self.list
            .meet::<u32, Strikes>(&mut own.half, &mut other.half, &number);
    }
}
