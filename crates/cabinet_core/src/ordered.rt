//! Records that keep their order.

ghost use Rattle.std.specs.Prelude.{◌↔◌, IsPermutation, IsTrue};
ghost use Rattle.std.specs.List.Sorted.{IsNonDecreasingBy};

use std::marker::Model;

/// A record that has a place among others of its kind.
pub trait Placed {
    ghost use Rattle.std.specs.Prelude.{◌≡◌, ℕ};

    /// The number that orders records of this kind.
    ghost place: { Self → ℕ };

    /// The number that orders records of this kind.
    fn place(&self) -> u32
        ensures { result ≡ place self.now };
}

/// Records of one kind in the ascending order of their places. They are seen as a list.
#[derive(Drop)]
pub struct Ordered<T: Placed> {
    list: Vec<T>,
}

impl<T: Placed> Model for Ordered<T> {
    ghost use Rattle.std.specs.Prelude.{List};
    ghost use Rattle.std.specs.List.Sorted.{IsNonDecreasingBy};

    ghost Value = { List T };

    ghost view = { λ r. r.list.items };

    ghost invariant = { λ r. IsNonDecreasingBy T.place r.list.items };
}

/// Whether the places of the records never fall.
fn is_in_order<T: Placed>(list: &[T]) -> bool
    ensures { IsTrue result ↔ IsNonDecreasingBy T.place list.now }
{
    for next in 1..list.len() {
        if list[next].place() < list[next - 1].place() {
            return false;
        }
    }
    true
}

/// The records of a list, in the ascending order of their places.
fn put_in_order<T: Placed>(mut list: Vec<T>) -> Vec<T>
    ensures in_order { IsNonDecreasingBy T.place result.items }
    ensures all { IsPermutation list.items result.items }
{
    list.sort_unstable_by_key(|x| x.place());
    list
}

impl<T: Placed> Ordered<T> {
    ghost use Rattle.std.specs.Prelude.{◌≡◌};

    /// The records of a list, in the ascending order of their places. A list in that order stays as
    /// it is; in another, records with equal places may come in any order.
    pub fn new(list: Vec<T>) -> Ordered<T>
        ensures in_order { IsNonDecreasingBy T.place result }
        ensures all { IsPermutation list.items result }
        ensures same { IsNonDecreasingBy T.place list.items → result ≡ list.items }
    {
        if is_in_order(list.as_slice()) {
            return Ordered { list };
        }
        let list = put_in_order(list);
        Ordered { list }
    }

    /// The records, in the ascending order of their places.
    pub fn as_slice(&self) -> &[T]
        ensures records { result.now ≡ self.now }
        ensures in_order { IsNonDecreasingBy T.place self.now }
    {
        self.list.as_slice()
    }

    /// The records as a list of their own, in order, without further memory.
    pub fn into_vec(self) -> Vec<T>
        ensures records { result.items ≡ self }
        ensures in_order { IsNonDecreasingBy T.place self }
    {
        let Ordered { list } = self;
        list
    }
}
