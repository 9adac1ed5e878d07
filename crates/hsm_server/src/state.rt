//! A lane as contracts see it.
ghost use Rattle.hsm_server.specs.Lanes.{LaneState, lane_state};

use crate::lane::Lane;
use hsm_io::{Clock, Door, Gate};

/// What contracts see as the state of a value.
pub trait HasState {
    /// The state.
    ghost state: { Self → LaneState };
}

impl<D: Door, C: Clock, G: Gate> HasState for Lane<D, C, G> {
    ghost state = { lane_state D.doorway D.faults D.broken D.is_out C.last C.to_come G.calls };
}
