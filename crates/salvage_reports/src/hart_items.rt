//! What some harts have, of what each hart of a capture has.

ghost use Rattle.std.specs.Prelude.{◌≡◌, drop, take};
ghost use Rattle.salvage_reports.specs.HartItems.{items_of};

use message::HartRange;

/// Of what each hart has, from hart 0 on, what these harts have. No memory is taken.
pub fn items_of<X>(harts: HartRange, items: &[X]) -> &[X]
    ensures { result.now ≡ items_of harts items.now }
{
    from_item(
        usize::from(harts.first),
        first_items(usize::from(harts.last) + 1, items),
    )
}

/// So many items, or all where there are fewer.
fn first_items<X>(count: usize, items: &[X]) -> &[X]
    ensures { result.now ≡ take count items.now }
{
    match items.get(..count) {
        Some(first) => first,
        None => items,
    }
}

/// The items from this place on; none where there is no such place.
fn from_item<X>(place: usize, items: &[X]) -> &[X]
    ensures { result.now ≡ drop place items.now }
{
    match items.get(place..) {
        Some(rest) => rest,
        None => &[],
    }
}
