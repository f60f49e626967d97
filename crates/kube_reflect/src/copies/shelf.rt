//! The two copies with their writer, as a value that can be let go.

ghost use Rattle.std.specs.Prelude.{◌≡◌, drop};

use crossbeam_utils::rule::Protocol;
use left_right::Absorb;
use left_right::writer::Writer;
use std::marker::Model;
use std::mem::ManuallyDrop;

/// Where it is dropped, the copies are kept for the readers.
pub(crate) struct Shelf<T: Absorb<O> + Drop, O: Drop, V, P: Protocol<T, V>> {
    inner: Writer<T, O, V, P>,
}

impl<T: Absorb<O> + Drop, O: Drop, V, P: Protocol<T, V>> Model for Shelf<T, O, V, P> {
    ghost use Rattle.std.specs.Prelude.{drop};
    ghost use Rattle.kube_reflect.specs.Shelves.{Shelved};

    ghost Value = { Shelved T O };

    ghost view = { λ s. record { shown = s.inner.desk.shown.value; pending = drop s.inner.behind s.inner.log.items } };
}

impl<T: Absorb<O> + Drop, O: Drop, V, P: Protocol<T, V>> Shelf<T, O, V, P> {
    pub(crate) fn new(inner: Writer<T, O, V, P>) -> Shelf<T, O, V, P>
        ensures { (result.shown ≡ inner.desk.shown.value) × (result.pending ≡ drop inner.behind inner.log.items) }
    {
        Shelf { inner }
    }

    pub(crate) fn open(self) -> Writer<T, O, V, P>
        ensures { (result.desk.shown.value ≡ self.shown) × (drop result.behind result.log.items ≡ self.pending) }
    {
        let Self { inner } = self;
        inner
    }
}

impl<T: Absorb<O> + Drop, O: Drop, V, P: Protocol<T, V>> Drop for Shelf<T, O, V, P> {
    fn drop(self) {
        let Self { inner } = self;
        let _kept = unsafe { ManuallyDrop::new_unchecked(inner) };
    }
}
