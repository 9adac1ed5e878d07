//! A listener of the system as a door, with its connections. They tell their counts alone.

ghost use Rattle.std.specs.Prelude.{◌≡◌, ◌<◌, length, None, IfSome, true, false};
ghost use Rattle.hsm_io.specs.Outside.{HasCause, has_got_failed, has_put_failed};
ghost use Rattle.hsm_io.specs.Connections.{ReadLink, WriteLink, LastFailed};
ghost use Rattle.hsm_system.specs.Inside.{stream_of};
ghost use Rattle.hsm_system.specs.Told.{TellsRead, TellsWrite};

use hsm_io::{Came, Door, Got, Link, Put};
use std::io::{Read, Write};
use std::net::{TcpListener, TcpStream};

/// A connection over a stream, with a count of its failed calls, and whether the last of them was a read.
#[derive(Drop)]
pub struct SystemLink<S> {
    stream: S,
    faults: u64,
    last_was_read: bool,
}

impl<S: Read + Write> Link for SystemLink<S> {
    ghost traffic = { λ link. None };

    ghost faults = { λ link. link.faults };

    ghost last_was_read = { λ link. link.last_was_read };

    fn read(&mut self, room: &mut [u8]) -> Got
        requires { 0 < length room.old }
        ensures bytes { ReadLink None None room.new result }
        ensures cause { HasCause self.old.faults self.new.faults (has_got_failed result) }
        ensures last { LastFailed true self.old.last_was_read self.new.last_was_read (has_got_failed result) }
        ensures told { TellsRead (S.remaining (stream_of self.old)) (S.remaining (stream_of self.new)) room.new result }
    {
        match self.stream.read(room) {
            Ok(0) => Got::End,
            Ok(count) => Got::Bytes(count),
            Err(_) => {
                self.faults = self.faults.saturating_add(1);
                self.last_was_read = true;
                Got::Failed
            }
        }
    }

    fn write(&mut self, piece: &[u8]) -> Put
        requires { 0 < length piece.now }
        ensures bytes { WriteLink None None piece.now result }
        ensures cause { HasCause self.old.faults self.new.faults (has_put_failed result) }
        ensures last { LastFailed false self.old.last_was_read self.new.last_was_read (has_put_failed result) }
        ensures told { TellsWrite (S.contents (stream_of self.old)) (S.contents (stream_of self.new)) piece.now result }
    {
        match self.stream.write(piece) {
            Ok(count) if count > 0 => Put::Took(count),
            _ => {
                self.faults = self.faults.saturating_add(1);
                self.last_was_read = false;
                Put::Failed
            }
        }
    }
}

/// A listener on a port of 127.0.0.1: how often accepting a connection failed, whether one is out, and how many of those that were taken back had failed.
#[derive(Drop)]
pub struct SystemDoor {
    listener: TcpListener,
    faults: u64,
    is_out: bool,
    broken: u64,
}

impl SystemDoor {
    /// The door of this listener, of which no connection is out, was taken back or failed.
    pub fn new(listener: TcpListener) -> Self
        ensures { (result.faults ≡ 0) × (result.is_out ≡ false) × (result.broken ≡ 0) }
    {
        SystemDoor {
            listener,
            faults: 0,
            is_out: false,
            broken: 0,
        }
    }

    /// Listens on the port, or gives none where that fails.
    pub fn open(rt: &HostRuntime, port: u16) -> Option<Self>
        ensures { IfSome result (λ door. (door.faults ≡ 0) × (door.is_out ≡ false) × (door.broken ≡ 0)) }
    {
        match TcpListener::bind(rt, ("127.0.0.1", port)) {
            Ok(listener) => Some(SystemDoor::new(listener)),
            Err(_) => None,
        }
    }
}

impl Door for SystemDoor {
    type Link = SystemLink<TcpStream>;

    ghost doorway = { λ door. None };

    ghost faults = { λ door. door.faults };

    ghost is_out = { λ door. door.is_out };

    ghost broken = { λ door. door.broken };

    fn next(&mut self) -> Came<SystemLink<TcpStream>> {
        match self.listener.accept() {
            Ok((stream, _)) => {
                // Small replies leave at once. Where that can't be had, they leave later.
                let _ = stream.set_nodelay(true);
                self.is_out = true;
                Came::Link(SystemLink {
                    stream,
                    faults: 0,
                    last_was_read: false,
                })
            }
            Err(_) => {
                self.faults = self.faults.saturating_add(1);
                Came::Failed
            }
        }
    }

    fn done(&mut self, link: SystemLink<TcpStream>) {
        self.is_out = false;
        if link.faults > 0 {
            self.broken = self.broken.saturating_add(1);
        }
    }
}
