//! A lane, and what it hands back.
ghost use Rattle.std.specs.Prelude.{◌≤◌};
ghost use Rattle.std.specs.Vec.{vec_capacity};

use hsm_session::{Report, Tools};

/// A door with what its connections are served with, and what became of them.
#[derive(Drop)]
pub struct Lane<D, C, G> {
    /// How many connections are served at most.
    pub accept: u16,
    /// What the connections are served with. Its number is the lane's: 0 for the console, from 1 on for hosts.
    pub tools: Tools<C, G>,
    pub door: D,
    /// One report for each connection that was served, in order.
    pub reports: Vec<Report>,
    /// Whether asking the door for a connection failed.
    pub door_fault: bool,
    ghost room: { accept ≤ vec_capacity reports },
}

/// What a lane hands back beside its pass.
#[derive(Drop)]
pub struct LaneEnd<D> {
    pub door: D,
    pub reports: Vec<Report>,
    pub door_fault: bool,
}
