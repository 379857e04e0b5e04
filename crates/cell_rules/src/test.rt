// The tests of the number called.
ghost use Rattle.std.specs.Prelude.{◌≡◌};
ghost use Rattle.rules.specs.Cells.{counts, none_called};

use rules::channel::{Cell, Offer};

// The offer is for a word that was not yet called for.
pub fn counts(x: Cell, o: Offer) -> bool
    ensures { result ≡ counts x o }
{
    x.channel.granted < o.number
}

// No word was called for.
pub fn none_called(x: Cell) -> bool
    ensures { result ≡ none_called x }
{
    x.channel.granted == 0
}
