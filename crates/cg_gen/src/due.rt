use cg_base::List;
use cg_deeds::Deed;

/// How a run ends once all that is due was done.
#[derive(Clone, Copy, Debug, PartialEq, Eq)]
pub enum Status {
    Built,
    Refused,
    NoCommand,
}

/// What a run is to do: its deeds in their order, and the status that it has after them.
#[derive(Drop)]
pub struct Due {
    pub deeds: List<Deed>,
    pub status: Status,
}
