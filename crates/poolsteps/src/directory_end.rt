//! How a directory is freed.
ghost use Rattle.std.specs.Prelude.{◌≡◌};
ghost use Rattle.std.specs.List.{All};

use crate::directory::Directory;
use crate::objects::Objects;
use slotcell::Clear;
use std::alloc::Global;

/// Frees a directory, whose places are all with these lanes, which stand by the order of their places, and drops the
/// objects. Where a place is missing, since a filling of it was forgotten, the objects of the others are dropped, and the
/// memory isn't freed.
pub fn close_directory<T: Clear + Drop>(
    alloc: Global,
    mut directory: Directory<T>,
    mut lanes: Vec<Objects<T>>,
)
    requires next { directory.next ≡ directory.count }
    requires lanes { All (λ lane. lane.directory ≡ directory.at) lanes.items }
{
    if !lanes.iter().all(|lane| lane.has_all()) {
        for lane in lanes {
            lane.let_go(alloc);
        }
        return;
    }
    let mut end = directory.count();
    while let Some(last) = lanes.pop() {
        let Some(start) = last.put_back(&mut directory, end) else {
            return;
        };
        end = start;
    }
    if end == 0 {
        directory.close(alloc);
    }
}
