//! The rule of the table, and what each step tells the seat that takes it.
ghost use Rattle.std.specs.Prelude.{None, option_map};
ghost use Rattle.chronicle.specs.{Rule.Keeps, Turn.drew, Turn.looked, Turn.passed};
ghost use Rattle.chronicle.specs.Views.{first_view, split_left, split_right, joined};

use crate::kept::Kept;
use crate::object::Object;
use crate::view::View;
use atomic_table::{Join, Play, Split, TableRule};
use std::marker::PhantomData;
use std::snapshot::Snapshot;

/// How the table began: the object, and how many calls each seat may make.
#[derive(Drop)]
pub struct Key<O> {
    pub object: Snapshot<O>,
    pub allotments: Snapshot<Vec<u64>>,
}

/// One legal history, whose seats take turns.
pub struct Turns<O> {
    object: PhantomData<O>,
}

impl<O: Object> TableRule<
    Kept<O, O::Request, O::Reply>,
    Option<View<O::Base, O::State, O::Request, O::Reply>>,
    Key<O>,
> for Turns<O> {
    ghost holds = { λ _. Keeps O.base O.state O.room O.sound O.after O.reply };

    ghost first = { λ key. first_view (O.base key.object.value) (O.state key.object.value) key.allotments.value.items };
}

/// Draws a ticket.
pub struct Draw;

impl<T, B, S, Q, A> Play<Kept<T, Q, A>, Option<View<B, S, Q, A>>> for Draw {
    ghost then = { drew };
}

/// Looks which ticket is served, and takes the object where it is the seat's. The look that takes
/// it also notes the whole history as seen: nobody else can take a step before the turn is passed
/// on, and the pass needs it.
pub struct Look<O> {
    object: PhantomData<O>,
}

impl<O: Object> Play<
    Kept<O, O::Request, O::Reply>,
    Option<View<O::Base, O::State, O::Request, O::Reply>>,
> for Look<O> {
    ghost then = { looked O.base O.state O.room O.sound O.after O.reply };
}

/// Gives the object back, and passes the turn on.
pub struct Pass;

impl<T, B, S, Q, A> Play<Kept<T, Q, A>, Option<View<B, S, Q, A>>> for Pass {
    ghost then = { passed };
}

/// Splits the next seat off, and joins seats.
pub struct Deal;

impl<B, S, Q, A> Split<Option<View<B, S, Q, A>>> for Deal {
    ghost left = { split_left };

    ghost right = { split_right };
}

impl<B, S, Q, A> Join<Option<View<B, S, Q, A>>> for Deal {
    ghost both = { joined };

    ghost spent = { None };
}
