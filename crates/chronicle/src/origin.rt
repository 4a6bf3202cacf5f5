// What a chronicle is in contracts.
ghost use Rattle.std.specs.Prelude.{ℕ, List};
ghost use Rattle.std.specs.Borrow.{ftrue};
ghost use Rattle.atomic_table.specs.Seated.{TableId, table_id_coded};

use std::marker::{Model, PhantomData};

/// Which chronicle it is, and how it began. Contracts see a `Chronicle` as its `Origin`.
pub struct Origin<B, S> {
    marker: PhantomData<(B, S)>,
    pub ghost table: { TableId } by { table_id_coded },
    /// What no step changes.
    pub ghost base: { B },
    /// The state in which the object came.
    pub ghost opening: { S },
    /// How many calls each seat was allotted, by number.
    pub ghost allotments: { List ℕ },
}

impl<B, S> Model for Origin<B, S> {
    ghost also_owns = { λ _. ftrue };
}
