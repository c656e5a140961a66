//! Lists of parts: of 1 to so many, and of any number.
ghost use Rattle.std.specs.Prelude.{◌≡◌, ◌≤◌, length, map, Some};
ghost use Rattle.std.specs.List.{list_all};
ghost use Rattle.tsn_cert.specs.Json.{array_value};
ghost use Rattle.tsn_cert.specs.Form as forms;

use crate::limited::{Limited, all_fit};
use std::marker::Model;

/// Parts in order: 1 to `MOST` of them.
#[derive(Drop)]
pub struct Listed<T, const MOST: usize> {
    list: Vec<T>,
}

impl<T, const MOST: usize> Model for Listed<T, MOST> {
    ghost use Rattle.std.specs.Prelude.{◌≤◌, List, length};

    ghost Value = { List T };

    ghost view = { λ parts. parts.list.items };

    ghost invariant = { λ parts. (1 ≤ length parts.list.items) × (length parts.list.items ≤ MOST) };
}

impl<T, const MOST: usize> Listed<T, MOST> {
    /// The parts of a list.
    pub fn of(list: Vec<T>) -> Self
        requires some { 1 ≤ length list.items }
        requires few { length list.items ≤ MOST }
        ensures { result ≡ list.items }
    {
        Listed { list }
    }

    /// The parts, in order.
    pub fn list(&self) -> &[T]
        ensures parts { result.now ≡ self.now }
        ensures some { 1 ≤ length result.now }
        ensures few { length result.now ≤ MOST }
    {
        self.list.as_slice()
    }

    /// Gives the parts back.
    pub fn into_list(self) -> Vec<T>
        ensures { result.items ≡ self }
    {
        let Listed { list } = self;
        list
    }
}

impl<T: Limited, const MOST: usize> Listed<T, MOST> {
    /// Whether each number of the parts is within its limit.
    pub(crate) fn fit(&self) -> bool
        ensures fits { result ≡ list_all T.within self.now }
        ensures grammar { (forms.few 1 MOST T.form).said (array_value (map T.printed self.now)) ≡ Some self.now }
    {
        all_fit::<T>(self.list())
    }
}

/// Parts in order, any number of them.
#[derive(Drop)]
pub struct Sequence<T> {
    list: Vec<T>,
}

impl<T> Model for Sequence<T> {
    ghost use Rattle.std.specs.Prelude.{List};

    ghost Value = { List T };

    ghost view = { λ parts. parts.list.items };
}

impl<T> Sequence<T> {
    /// The parts of a list.
    pub fn of(list: Vec<T>) -> Self
        ensures { result ≡ list.items }
    {
        Sequence { list }
    }

    /// The parts, in order.
    pub fn list(&self) -> &[T]
        ensures { result.now ≡ self.now }
    {
        self.list.as_slice()
    }

    /// Gives the parts back.
    pub fn into_list(self) -> Vec<T>
        ensures { result.items ≡ self }
    {
        let Sequence { list } = self;
        list
    }
}

impl<T: Limited> Sequence<T> {
    /// Whether each number of the parts is within its limit.
    pub(crate) fn fit(&self) -> bool
        ensures fits { result ≡ list_all T.within self.now }
        ensures grammar { (forms.list T.form).said (array_value (map T.printed self.now)) ≡ Some self.now }
    {
        all_fit::<T>(self.list())
    }
}
