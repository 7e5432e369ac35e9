//! The list, and its two halves.

ghost use Rattle.std.specs.Prelude.{◌≡◌, ◌<◌, ◌++◌, [], IfOk};
ghost use Rattle.agreed_list.specs.Agreed.{half_of};

use crate::known::Known;
use atomic_table::{Join, Play, Seat, Split, Table, TableRule};
use std::alloc::{AllocError, Global};
use std::marker::{Brand, Model};
use std::mem;

/// What a value adds to a list.
pub trait More<W, E> {
    ghost use Rattle.std.specs.Prelude.{List};

    ghost more: { W → List E };
}

/// What is added by one call, which its caller picks.
trait Named<E> {
    ghost use Rattle.std.specs.Prelude.{List};

    ghost named: { List E };
}

impl<E> Named<E> for Brand {
    ghost use Rattle.std.specs.Prelude.{[]};

    ghost named = { [] };
}

/// Whoever has a part knows the list.
struct Agreed;

impl<E> TableRule<(), Known<E>, ()> for Agreed {
    ghost use Rattle.agreed_list.specs.Agreed.{IsAgreed, whole};

    ghost holds = { λ _ s. IsAgreed s.views };

    ghost first = { λ _. whole };
}

/// How the list is cut in two, and put together again.
struct Halves;

impl<E> Split<Known<E>> for Halves {
    ghost use Rattle.agreed_list.specs.Agreed.{left_part, right_part};

    ghost left = { left_part };

    ghost right = { right_part };
}

impl<E> Join<Known<E>> for Halves {
    ghost use Rattle.agreed_list.specs.Agreed.{both_parts, no_part};

    ghost both = { both_parts };

    ghost spent = { no_part };
}

/// Who comes has no part.
struct Comes;

impl<E> Play<(), Known<E>> for Comes {
    ghost use Rattle.agreed_list.specs.Agreed.{IsNobody};

    ghost then = { λ _ _ _ new. IsNobody new };
}

/// Both halves know one list, and then more.
struct Meets<N> {
    more: N,
}

impl<E, N: Named<E>> Play<(), Known<E>> for Meets<N> {
    ghost use Rattle.agreed_list.specs.Agreed.{MeetsWith};

    ghost then = { λ _ old _ new. MeetsWith N.named old new };
}

/// A half of a list. Contracts see it as the list that it is of, and what it knows of it.
#[derive(Drop)]
pub struct Half<E> {
    seat: Seat<(), Known<E>>,
}

impl<E> Model for Half<E> {
    ghost use Rattle.agreed_list.specs.Agreed.{HalfState, IsHalf};

    ghost Value = { HalfState E };

    ghost view = { λ h. record { list = h.seat.table_id; items = h.seat.me.0.one } };

    ghost invariant = { λ h. IsHalf h.seat.me };
}

/// A list that two know. Contracts see it as its name.
#[derive(Drop)]
pub struct AgreedList<E> {
    table: Table<(), Known<E>, (), Agreed, Global>,
}

impl<E> Model for AgreedList<E> {
    ghost use Rattle.std.specs.Prelude.{◌<◌};
    ghost use Rattle.atomic_table.specs.Seated.{TableId};

    ghost Value = { TableId };

    ghost view = { λ l. l.table.shared.table_id };

    ghost invariant = { λ l. 0 < l.table.shared.table_id.words };
}

impl<E> AgreedList<E> {
    /// An empty list, and its halves.
    pub fn open(alloc: Global) -> Result<(AgreedList<E>, Half<E>, Half<E>), AllocError>
        ensures one { IfOk result (λ r. r.1 ≡ half_of r.0 []) }
        ensures other { IfOk result (λ r. r.2 ≡ half_of r.0 []) }
    {
        let (table, mut seat) = Table::of_words(alloc, &[0], &())?;
        let other = table.shared.split_seat::<Halves>(&mut seat);
        Ok((AgreedList { table }, Half { seat }, Half { seat: other }))
    }

    /// Both halves know one list, to which what this value adds is added.
    pub fn meet<W, N: More<W, E>>(&self, one: &mut Half<E>, other: &mut Half<E>, of: &W)
        requires one { one.old.list ≡ self.now }
        requires other { other.old.list ≡ self.now }
        ensures agreed { one.old.items ≡ other.old.items }
        ensures one { one.new ≡ half_of self.now (one.old.items ++ N.more of.now) }
        ensures other { other.new ≡ half_of self.now (one.old.items ++ N.more of.now) }
    {
        self.meet_named::<W, N, Brand>(one, other, of);
    }

    fn meet_named<W, M: More<W, E>, N: Named<E>>(
        &self,
        one: &mut Half<E>,
        other: &mut Half<E>,
        of: &W,
    )
        requires one { one.old.list ≡ self.now }
        requires other { other.old.list ≡ self.now }
        requires named { N.named ≡ M.more of.now }
        ensures agreed { one.old.items ≡ other.old.items }
        ensures one { one.new ≡ half_of self.now (one.old.items ++ M.more of.now) }
        ensures other { other.new ≡ half_of self.now (one.old.items ++ M.more of.now) }
    {
        let _ = of;
        let (_found, nobody) = self.table.shared.load_new_seat::<Comes>(0);
        let theirs = mem::replace(&mut other.seat, nobody);
        self.table.shared.join_seat::<Halves>(&mut one.seat, theirs);
        self.table.shared.load::<Meets<N>>(&mut one.seat, 0);
        other.seat = self.table.shared.split_seat::<Halves>(&mut one.seat);
    }
}
