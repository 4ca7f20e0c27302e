//! The rows of a book in the order of storing, and a map from each number to its row.

ghost use Rattle.std.specs.Prelude.{◌≡◌, ◌++◌, ◌∷◌, [], false, OnOk, OnErr, length, ◌<◌, ◌^◌};
ghost use Rattle.campaign_book.specs.Rows.{row_at, has_number, number_of};

use crate::row::Row;
use std::alloc::{AllocError, Global};
use std::collections::BTreeMap;
use std::marker::Model;

/// The rows of a book, which are looked up by number. Contracts see their list.
#[derive(Drop)]
pub(crate) struct Rows {
    list: Vec<Row>,
    places: BTreeMap<u64, Row>,
}

impl Model for Rows {
    ghost use Rattle.std.specs.Prelude.{◌≡◌, ℕ, List};
    ghost use Rattle.std.specs.Ordering.{nat_cmp};
    ghost use Rattle.std.specs.BTreeMap as tree;
    ghost use Rattle.campaign_book.specs.declared.row.Row.{Row};
    ghost use Rattle.campaign_book.specs.Rows.{row_at};

    ghost Value = { List Row };

    ghost view = { λ r. r.list.items };

    ghost invariant = { λ r. (k : ℕ) → tree.get nat_cmp r.places k ≡ row_at k r.list.items };
}

impl Rows {
    /// Returns an empty list of rows.
    pub(crate) fn new(alloc: Global) -> Rows
        ensures { result ≡ [] }
    {
        Rows {
            list: Vec::new(alloc),
            places: BTreeMap::new(alloc),
        }
    }

    /// Returns the rows in the order of storing.
    pub(crate) fn as_slice(&self) -> &[Row]
        ensures { result.now ≡ self.now }
    {
        self.list.as_slice()
    }

    /// Returns the row with a number, if there is one.
    pub(crate) fn at(&self, number: u64) -> Option<Row>
        ensures { result ≡ row_at number self.now }
    {
        self.places.get(&number).copied()
    }

    /// Appends a row with a new number. Nothing changes if memory runs out.
    pub(crate) fn push(&mut self, row: Row) -> Result<(), AllocError>
        requires { has_number (number_of row) self.old ≡ false }
        ensures ok { OnOk result (self.new ≡ self.old ++ row ∷ []) }
        ensures small { OnOk result (length self.old < 2 ^ 63) }
        ensures err { OnErr result (self.new ≡ self.old) }
    {
        let Rows { list, places } = self;
        list.reserve(1)?;
        let Ok(_) = places.insert(row.number(), row) else {
            return Err(AllocError);
        };
        list.push_reserved(row);
        Ok(())
    }
}
