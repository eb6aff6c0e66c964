//! What is damaged of salvaged harts.

ghost use Rattle.std.specs.Prelude.{◌≡◌};
ghost use Rattle.std.specs.List.{list_any};
ghost use Rattle.salvaging.specs.PartsIn.{parts_in};
ghost use Rattle.salvage_reports.specs.Damage.{closed_harts, first_unclosed, has_loss, is_damaged, is_no_stretch};

use salvaging::{Part, SalvagedHart};

/// The first of these harts, from this number on, that is not closed, if there is one.
pub(crate) fn first_unclosed(first: u16, harts: &[SalvagedHart]) -> Option<usize>
    ensures { result ≡ first_unclosed first (closed_harts harts.now) }
{
    for (place, own) in harts.iter().enumerate() {
        if !own.closed {
            return Some(usize::from(first) + place);
        }
    }
    None
}

/// Whether some number is missing, bad, doubtful or alone, or there is a stranger.
pub(crate) fn is_damaged(harts: &[SalvagedHart], strangers: usize) -> bool
    ensures { result ≡ is_damaged harts.now strangers }
{
    have_losses(harts) || strangers > 0
}

/// Whether some hart's number is missing, bad, doubtful or alone.
fn have_losses(harts: &[SalvagedHart]) -> bool
    ensures { result ≡ list_any has_loss harts.now }
{
    for own in harts {
        if has_loss(own.parts.as_slice()) {
            return true;
        }
    }
    false
}

/// Whether one of these parts is no stretch.
fn has_loss(parts: &[Part]) -> bool
    ensures { result ≡ list_any is_no_stretch (parts_in parts.now) }
{
    for part in parts {
        if !matches!(part, Part::Stretch { .. }) {
            return true;
        }
    }
    false
}
