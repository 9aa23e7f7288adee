// The images of a point, by their places.
ghost use Rattle.std.specs.Prelude.{◌≡◌, ◌<◌};
ghost use Rattle.grgrid.specs.Grid.{size};
ghost use Rattle.grgrid.specs.Sides.{sides};
ghost use Rattle.bztable.specs.Access.{place_in, image_places};
ghost use Rattle.bztable.specs.Code.PlacesView.{places_listed};

pub use crate::place::{Place, Places};
use crate::reading;
use crate::reading::Table;
use bzgrid::GridType;
use common::Refusal;

#[inline(always)]
pub fn places_at(table: &Table, p: Place) -> Result<Places, Refusal>
    ensures { places_listed result ≡ image_places table.now.t table.now.map.now (size (sides table.now.g)) p.at }
{
    let r = reading::run_of(table, p.at)?;
    match table.t {
        // The first image stands at its own place.
        GridType::Sparse => Ok(Places {
            first: p,
            others: r.from,
            count: (r.to + 1).saturating_sub(r.from),
        }),
        GridType::Dense => Ok(Places {
            first: Place { at: r.from },
            others: r.from + 1,
            count: r.to.saturating_sub(r.from),
        }),
    }
}

#[inline(always)]
pub fn place_in(r: Places, k: usize) -> Place
    requires { k < r.count }
    ensures { result.at ≡ place_in r.first.at r.others k }
{
    if k == 0 {
        return r.first;
    }
    Place {
        at: r.others + (k - 1),
    }
}
