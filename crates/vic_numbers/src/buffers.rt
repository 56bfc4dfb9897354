//! Lists copied into a caller's buffer.

ghost use Rattle.std.specs.Prelude.{◌≡◌, map};
ghost use Rattle.vic_numbers.specs.Buffers.{IsReturned};

use vic_frame::Uid;

/// Copies a list to the start of a buffer, if it fits, and returns how long it is.
pub fn copy_list<T: Copy>(list: &[T], room: &mut [T]) -> usize
    ensures { IsReturned list.now room.old room.new result }
{
    if list.len() <= room.len() {
        room[..list.len()].copy_from_slice(list);
    }
    list.len()
}

/// Copies the values of items, as `value_of` has them, to the start of a buffer, if they fit, and
/// returns how many there are.
pub(crate) fn copy_each<T: Copy, V: Copy, F: Fn(T) -> V>(
    items: &[T],
    room: &mut [V],
    value_of: F,
) -> usize
    requires { F.IsAlwaysCallable value_of }
    // `value` is any function whose values `value_of` returns
    ensures { (value : T → V) → ((x : T) (v : _) → F.post value_of x v → v ≡ value x)
        → IsReturned (map value items.now) room.old room.new result }
{
    if items.len() <= room.len() {
        for (index, item) in items.iter().enumerate() {
            room[index] = value_of(*item);
        }
    }
    items.len()
}

/// Copies UIDs to the start of a buffer, if they fit, and returns how many there are.
pub fn copy_uids(uids: &[Uid], room: &mut [u64]) -> usize
    ensures { IsReturned uids.now room.old room.new result }
{
    copy_each(uids, room, |uid| uid.number())
}
