//! A map from numbers.
ghost use Rattle.std.specs.Prelude.{◌≡◌, [], OnOk, OnErr, None, Some};
ghost use Rattle.{std.specs.Borrow.{sem}, std.specs.Option.{option_copied, option_copied_mut}, node_core.specs.Outcomes.{value_at, Renumbered}};

use crate::Alloc;
use std::alloc::Global;
use std::collections::BTreeMap;
use std::marker::Model;

/// Values by numbers. Clauses see it as its entries.
#[derive(Drop)]
pub struct Numbered<T> {
    rows: BTreeMap<u32, T>,
}

impl<T> Model for Numbered<T> {
    ghost use Rattle.std.specs.Prelude.{ℕ, List};
    ghost use Rattle.std.specs.Coded.{coded_list, coded×, coded_ℕ};

    ghost Value = { List (ℕ × T) };

    ghost coded = { coded_list (coded× coded_ℕ T.code) };

    ghost view = { λ m. m.rows.entries };
}

impl<T> Numbered<T> {
    /// The empty map.
    pub fn new(alloc: Global) -> Numbered<T>
        ensures { result ≡ [] }
    {
        Numbered {
            rows: BTreeMap::new(alloc),
        }
    }

    /// The value of a number.
    pub fn get(&self, number: u32) -> Option<&T>
        ensures { option_copied result ≡ value_at self.now number }
    {
        self.rows.get(&number)
    }
}

impl<T> Numbered<T> {
    ghost use Rattle.node_core.specs.Lends.{lends_number};

    /// The value of a number, for writing.
    pub fn get_mut(&mut self, number: u32) -> Option<&mut T>
        ensures* writes_back { sem 𝓛 (lends_number T.row self.entry number result) }
        ensures value { option_copied_mut result ≡ value_at self.old number }
    {
        self.rows.get_mut(&number)
    }
}

impl<T: Drop> Numbered<T> {
    /// Sets the value of a number. An `Err` changes nothing.
    pub fn put(&mut self, number: u32, value: T) -> Alloc<()>
        ensures ok { OnOk result (Renumbered self.old self.new number (Some value)) }
        ensures err { OnErr result (self.new ≡ self.old) }
    {
        self.rows.insert(number, value)?;
        Ok(())
    }

    /// Takes the value of a number out.
    pub fn remove(&mut self, number: u32) -> Option<T>
        ensures value { result ≡ value_at self.old number }
        ensures rest { Renumbered self.old self.new number None }
    {
        self.rows.remove(&number)
    }
}
