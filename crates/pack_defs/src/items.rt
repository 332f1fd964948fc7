//! A list that contracts see as a plain list.

ghost use Rattle.std.specs.Prelude.{◌≡◌};

use std::marker::Model;

/// A list that contracts see as the plain list of its items. Conversions from and to `Vec` allocate nothing.
#[derive(Debug, Drop)]
pub struct Items<T> {
    list: Vec<T>,
}

impl<T> Model for Items<T> {
    ghost use Rattle.std.specs.Prelude.{List};

    ghost Value = { List T };

    ghost view = { λ s. s.list.items };
}

impl<T> Items<T> {
    /// Returns the list of the vector's items.
    pub fn from_vec(list: Vec<T>) -> Items<T>
        ensures { result ≡ list.items }
    {
        Items { list }
    }

    /// Returns the vector of the items.
    pub fn into_vec(self) -> Vec<T>
        ensures { result.items ≡ self }
    {
        self.list
    }

    /// Returns the items.
    pub fn as_slice(&self) -> &[T]
        ensures { result.now ≡ self.now }
    {
        &self.list
    }
}
