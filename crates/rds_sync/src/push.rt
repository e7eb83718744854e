//! Items that are appended to a part.

ghost use Rattle.std.specs.Prelude.{◌≡◌, ◌<◌, ◌++◌, [], ◌∷◌, length, vec_capacity};

/// Appends an item, of any type: the check has no proof of a push that sees how an item is built.
#[inline(always)]
pub(crate) fn push_one<T: Copy>(part: &mut Vec<T>, item: &T)
    requires { length part.old.items < vec_capacity part.old }
    ensures items { part.new.items ≡ part.old.items ++ (item.now ∷ []) }
    ensures room { vec_capacity part.new ≡ vec_capacity part.old }
{
    part.push_reserved(*item);
}
