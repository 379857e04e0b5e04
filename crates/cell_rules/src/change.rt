// What an offer, an advert, a call and a word change in a cell.
ghost use Rattle.std.specs.Prelude.{◌≡◌, ◌<◌};
ghost use Rattle.rules.specs.Cells.{carrying, holding, noting, granting, cleared, passing};

use crate::{fields, order};
use plan::ProcessorId;
use rules::channel::{Cell, Offer};

// An offer is carried, beside one that may be there.
pub fn carrying(x: Cell, o: Offer) -> Cell
    ensures { result ≡ carrying x o }
{
    fields::with_carried(x, order::larger(x.channel.carried, o))
}

// An offer is held at the desk, beside one that may be there.
pub fn holding(x: Cell, o: Offer) -> Cell
    ensures { result ≡ holding x o }
{
    fields::with_held(x, order::larger(x.entry.held, o))
}

// An advert is noted at the desk.
pub fn noting(x: Cell, d: ProcessorId) -> Cell
    ensures { result ≡ noting x d }
{
    fields::with_noted(x, order::first_noted(x.entry.noted, d))
}

// One more word is called for, and the call is marked.
pub fn granting(mut x: Cell) -> Cell
    requires { x.channel.granted < 255 }
    ensures { result ≡ granting x }
{
    x.channel.granted += 1;
    x.channel.awaiting = true;
    x
}

// The mark of a call is gone.
pub fn cleared(mut x: Cell) -> Cell
    ensures { result ≡ cleared x }
{
    x.channel.awaiting = false;
    x
}

// The w-th word passes directly.
pub fn passing(mut x: Cell, w: u8) -> Cell
    ensures { result ≡ passing x w }
{
    x.channel.granted = w;
    cleared(x)
}
