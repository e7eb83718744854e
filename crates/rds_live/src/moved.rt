//! States and items whose places are counted from elsewhere.

ghost use Rattle.std.specs.Prelude.{◌≡◌, ◌+◌, ◌<◌, ◌≤◌, ◌^◌, ◌∷◌, [], All, map};
ghost use Rattle.rds_live.specs.{Moving.moved_item, Moving.moved_items, Moving.moved_state, Next.moved_back as the_moved_back, Places.place_of, Places.is_due_below, Places.is_due_from};

use rds_sync::{Group, Item, Lock, State};

/// Moves all items on by `by` places.
pub(crate) fn move_on(items: &mut [Item], by: u64)
    requires { All (λ item. place_of item + by < 2 ^ 64) items.old }
    ensures { items.new ≡ moved_items by items.old }
{
    for i in 0..items.len() {
        move_item(&mut items[i], by);
    }
}

/// Moves the item on by `by` places, in place: it is larger than a register.
fn move_item(item: &mut Item, by: u64)
    requires { place_of item.old + by < 2 ^ 64 }
    ensures { item.new ≡ moved_item by item.old }
{
    match item {
        Item::Acquired { place, .. } => *place += by,
        Item::Group(group) => group.place += by,
        Item::LostLock { place } => *place += by,
    }
}

/// The group, moved on by `by` places.
pub(crate) fn moved_group(group: Group, by: u64) -> Group
    requires { group.place + by < 2 ^ 64 }
    ensures { Item.Group result ≡ moved_item by (Item.Group group) }
{
    Group {
        place: group.place + by,
        ..group
    }
}

/// The state, moved on by `by` places.
pub fn moved_on(state: State, by: u64) -> State
    requires { is_due_below (2 ^ 63) state × (by < 2 ^ 63) }
    ensures { result ≡ moved_state by state }
{
    match state {
        State::Searching => State::Searching,
        State::Locked(lock) => State::Locked(Lock {
            due: lock.due + by,
            ..lock
        }),
    }
}

/// The state, moved back by `by` places.
pub fn moved_back(state: State, by: u64) -> State
    requires { is_due_from by state }
    ensures value { result ≡ the_moved_back by state }
    ensures back { moved_state by result ≡ state }
{
    match state {
        State::Searching => State::Searching,
        State::Locked(lock) => State::Locked(Lock {
            due: lock.due - by,
            ..lock
        }),
    }
}
