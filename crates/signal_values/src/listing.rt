//! Lists as contracts see them.

use std::marker::Model;

/// Things in their order, kept in a `Vec`. Contracts see the list of them.
#[derive(Drop)]
pub struct Listing<T> {
    list: Vec<T>,
}

impl<T> Model for Listing<T> {
    ghost use Rattle.std.specs.Prelude.{List};

    ghost Value = { List T };

    ghost view = { λ listing. listing.list.items };
}

impl<T> Listing<T> {
    ghost use Rattle.std.specs.Prelude.{◌≡◌};

    /// The things of a `Vec`, in its order. It takes no memory.
    pub fn new(list: Vec<T>) -> Listing<T>
        ensures { result ≡ list.items }
    {
        Listing { list }
    }

    /// The things, in order.
    pub fn as_slice(&self) -> &[T]
        ensures { result.now ≡ self.now }
    {
        self.list.as_slice()
    }

    /// The things as a `Vec`, in order. It takes no memory.
    pub fn into_vec(self) -> Vec<T>
        ensures { result.items ≡ self }
    {
        let Listing { list } = self;
        list
    }
}
