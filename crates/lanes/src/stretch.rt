//! The stretch of one lane: the records that wait, the oldest first, and then the free places.
ghost use Rattle.std.specs.Prelude.{◌≡◌, ◌<◌, ◌≤◌, ◌++◌, length, take, drop, slice_set};

use super::update::Update;

/// Puts an update at a place.
pub(crate) fn put(stretch: &mut [Update], place: usize, update: Update)
    requires { place < length stretch.old }
    ensures { stretch.new ≡ slice_set stretch.old place update }
{
    stretch[place] = update;
}

/// Moves the others up to the head's place; the head itself goes to the end.
pub(crate) fn drop_head(stretch: &mut [Update])
    requires { 1 ≤ length stretch.old }
    ensures { stretch.new ≡ drop 1 stretch.old ++ take 1 stretch.old }
{
    stretch.rotate_left(1);
}
