// What the rig keeps for one channel: at a desk, and for the channel itself.
use plan::ProcessorId;

// A location hint, the paper's pointer: "(desk, count; both 0 is unknown)" of a channel's receiver, or of a parent.
#[derive(Clone, Copy)]
pub struct Hint {
    pub processor: ProcessorId,
    pub moves: u16,
}

// "An offer is the sender's desk and a number"; both 0 is none.
#[derive(Clone, Copy)]
pub struct Offer {
    pub processor: ProcessorId,
    pub number: u8,
}

// "For each desk and channel there are a pointer .., a held offer and a noted advert", and "an advert the sender's desk".
#[derive(Clone, Copy)]
pub struct Entry {
    pub hint: Hint,
    pub held: Offer,
    pub noted: ProcessorId,
}

// "Each channel has the number called (0 to 64) .. also .. one carried offer and one travelling pointer", and "keeps a mark" that
// its receiver has called.
#[derive(Clone, Copy)]
pub struct Channel {
    pub granted: u8,
    pub awaiting: bool,
    pub carried: Offer,
    pub travelling: Hint,
}

// What a rule about one channel at one desk finds there: the desk's entry for the channel, and the channel's own.
#[derive(Clone, Copy)]
pub struct Cell {
    pub entry: Entry,
    pub channel: Channel,
}
