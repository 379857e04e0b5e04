// A cell with one field changed.
ghost use Rattle.std.specs.Prelude.{◌≡◌};
ghost use Rattle.rules.specs.Cells.{with_held, with_hint, with_noted, with_carried};

use plan::ProcessorId;
use rules::channel::{Cell, Hint, Offer};

// The desk's held offer.
pub fn with_held(mut x: Cell, o: Offer) -> Cell
    ensures { result ≡ with_held x o }
{
    x.entry.held = o;
    x
}

// The desk's pointer.
pub fn with_hint(mut x: Cell, h: Hint) -> Cell
    ensures { result ≡ with_hint x h }
{
    x.entry.hint = h;
    x
}

// The desk's noted advert.
pub fn with_noted(mut x: Cell, d: ProcessorId) -> Cell
    ensures { result ≡ with_noted x d }
{
    x.entry.noted = d;
    x
}

// The channel's carried offer.
pub fn with_carried(mut x: Cell, o: Offer) -> Cell
    ensures { result ≡ with_carried x o }
{
    x.channel.carried = o;
    x
}
