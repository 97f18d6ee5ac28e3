//! Places in trees, and those of intersections: under the number, and then by a key of their own.

ghost use Rattle.std.specs.Prelude.{◌≡◌, IfOk};
ghost use Rattle.office_tables_maps.specs.Keys.{AreKeyLaws, Keys, plan_keys, plan_laws, record_keys, record_laws, line_keys, line_laws};
ghost use Rattle.office_tables_maps.specs.Records.{number_places, number_laws, under_intersection, under_laws, codes, code_laws, delivery_places, delivery_laws};
ghost use Rattle.office_tables_maps.specs.Stored.{AreLaws, Places};

use cabinet_core::PartCode;
use signal_records::{InterId, Key, LineNo, PatternNo, PhaseNo, RecordNo};
use std::alloc::AllocError;

/// A place in a tree.
pub(crate) trait TreePlace: Ord + Drop {
    /// The cells that stand for places, and their limits.
    ghost places: { Places Self };

    /// A copy of the place.
    fn copy(&self) -> Result<Self, AllocError>
        ensures { IfOk result (λ copy. copy ≡ self.now) };

    /// The cells are ordered as the places are, and a place is known by them.
    ghost laws: { AreLaws Self.cmp places };
}

impl TreePlace for InterId {
    ghost places = { number_places };

    ghost laws = { number_laws };

    fn copy(&self) -> Result<InterId, AllocError> {
        Ok(*self)
    }
}

impl<K: Ends> TreePlace for (InterId, K) {
    ghost places = { under_intersection K.keys };

    ghost laws = { under_laws K.Ends.laws };

    fn copy(&self) -> Result<(InterId, K), AllocError> {
        Ok((self.0, self.1))
    }
}

impl TreePlace for PartCode {
    ghost places = { codes };

    ghost laws = { code_laws };

    fn copy(&self) -> Result<PartCode, AllocError> {
        self.clone()
    }
}

impl TreePlace for (PartCode, RecordNo) {
    ghost places = { delivery_places };

    ghost laws = { delivery_laws };

    fn copy(&self) -> Result<(PartCode, RecordNo), AllocError> {
        Ok((self.0.clone()?, self.1))
    }
}

/// A key that rows have beside their intersection.
pub(crate) trait Ends: Ord + Copy + Drop {
    /// The cells of such keys, their limits, and the first and the last of them.
    ghost keys: { Keys Self };

    /// The first key and the last.
    fn ends() -> (Self, Self)
        ensures { result ≡ (keys.first, keys.last) };

    /// The cells are ordered as the keys are, and keys lie from the first to the last.
    ghost laws: { AreKeyLaws Self.cmp keys };
}

impl Ends for Key {
    ghost keys = { plan_keys };

    ghost laws = { plan_laws };

    fn ends() -> (Key, Key) {
        let first = PhaseNo::new(1).unwrap();
        let last = PatternNo::new(48).unwrap();
        (Key::Phase(first), Key::Pattern(last))
    }
}

impl Ends for RecordNo {
    ghost keys = { record_keys };

    ghost laws = { record_laws };

    fn ends() -> (RecordNo, RecordNo) {
        (RecordNo::new(1).unwrap(), RecordNo::new(999_999).unwrap())
    }
}

impl Ends for (RecordNo, LineNo) {
    ghost keys = { line_keys };

    ghost laws = { line_laws };

    fn ends() -> ((RecordNo, LineNo), (RecordNo, LineNo)) {
        let (first, last) = RecordNo::ends();
        let (low, high) = (LineNo::new(1).unwrap(), LineNo::new(99).unwrap());
        ((first, low), (last, high))
    }
}
