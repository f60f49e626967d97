//! Why a value is no object, and where.

ghost use Rattle.std.specs.Prelude.{◌≡◌, ◌∷◌, ◌++◌, [], IfOk, string_bytes, decimal};
ghost use Rattle.kube_meta.specs.Places.{escaped, under as under_part, IsUnlessMemory};
ghost use Rattle.kube_meta.specs.declared.object_fault.ObjectFault.TheVariants.{Shape as shape, NoMemory as out_of_memory};

use crate::memory::NoMemory;
use crate::text::Text;
use std::alloc::{AllocError, AllocFailed, Global};
use thiserror::Error;

/// Why a value is no object. Places are JSON Pointers (RFC 6901), the empty one for the value itself.
#[derive(Debug, Drop, Error)]
pub enum ObjectFault {
    #[error("out of memory")]
    NoMemory,
    /// What stands there, or is missing there, has another form than an object's.
    #[error("of another form at `{0}`")]
    Shape(Text),
    /// There stands a number that is neither a `u64` nor an `i64`.
    #[error("a number that is not whole at `{0}`")]
    Fraction(Text),
}

impl ObjectFault {
    /// A fault of form of the value itself.
    pub fn shape(alloc: Global) -> ObjectFault
        ensures { result ≡ shape [] }
    {
        ObjectFault::Shape(Text::from(String::new(alloc)))
    }

    /// The same, seen from the object whose member of that name the value is: the place with the name in front.
    ///
    /// `NoMemory` where the place couldn't be made.
    pub fn under(self, alloc: Global, name: &str) -> ObjectFault
        ensures { IsUnlessMemory result (under_part (escaped name.now) self) }
    {
        match escape(alloc, name) {
            Ok(part) => self.behind(alloc, part.as_str()),
            Err(_) => ObjectFault::NoMemory,
        }
    }

    /// The same, seen from the list whose item of that index the value is, the first 0.
    ///
    /// `NoMemory` where the place couldn't be made.
    pub fn in_item(self, alloc: Global, index: usize) -> ObjectFault
        ensures { IsUnlessMemory result (under_part (decimal index) self) }
    {
        match format!(in alloc; "{index}") {
            Ok(part) => self.behind(alloc, part.as_str()),
            Err(_) => ObjectFault::NoMemory,
        }
    }

    fn behind(self, alloc: Global, part: &str) -> ObjectFault
        ensures { IsUnlessMemory result (under_part part.now self) }
    {
        match self {
            ObjectFault::NoMemory => ObjectFault::NoMemory,
            ObjectFault::Shape(place) => match joined(alloc, part, &place) {
                Ok(place) => ObjectFault::Shape(place),
                Err(_) => ObjectFault::NoMemory,
            },
            ObjectFault::Fraction(place) => match joined(alloc, part, &place) {
                Ok(place) => ObjectFault::Fraction(place),
                Err(_) => ObjectFault::NoMemory,
            },
        }
    }
}

/// A pointer with one more part in front.
fn joined(alloc: Global, part: &str, place: &Text) -> Result<Text, NoMemory>
    ensures { IfOk result (λ t. t ≡ 47 ∷ (part.now ++ place.now)) }
{
    Ok(Text::from(format!(in alloc; "/{part}{place}")?))
}

/// A member's name as a part of a pointer.
fn escape(alloc: Global, name: &str) -> Result<String, NoMemory>
    ensures { IfOk result (λ s. string_bytes s ≡ escaped name.now) }
{
    let mut part = String::new(alloc);
    for c in name.chars() {
        match c {
            '~' => part.push_str("~0")?,
            '/' => part.push_str("~1")?,
            _ => part.push(c)?,
        }
    }
    Ok(part)
}

impl From<NoMemory> for ObjectFault {
    ghost from_gives = { λ _ e. e ≡ out_of_memory };

    fn from(_error: NoMemory) -> ObjectFault {
        ObjectFault::NoMemory
    }
}

impl From<AllocError> for ObjectFault {
    ghost from_gives = { λ _ e. e ≡ out_of_memory };

    fn from(_error: AllocError) -> ObjectFault {
        ObjectFault::NoMemory
    }
}

impl<T: Drop> From<AllocFailed<T>> for ObjectFault {
    ghost from_gives = { λ _ e. e ≡ out_of_memory };

    fn from(_error: AllocFailed<T>) -> ObjectFault {
        ObjectFault::NoMemory
    }
}
