//! How a copy takes in the operations.

ghost use Rattle.std.specs.Prelude.{◌≡◌};

use crate::copies::copied::{Copied, Op, State};
use kube_meta::Resource;
use left_right::Absorb;
use std::alloc::AllocError;

impl<K: Resource> Absorb<Op<K>> for Copied<K> {
    ghost use Rattle.kube_reflect.specs.Copies.{state_of, worked};

    type State = State<K>;

    ghost state = { state_of };

    ghost applied = { worked K.type_of K.meta_of };

    fn absorb_first(&mut self, operation: &Op<K>, _other: &Copied<K>) -> Result<(), AllocError> {
        match operation {
            Op::Add(event) => {
                if self.made.apply(self.alloc, &*self.dyntype, event).is_err() {
                    return Err(AllocError);
                }
            }
            Op::End => self.has_ended = true,
            Op::Name(mark) => self.mark = mark.again(),
        }
        Ok(())
    }
}
