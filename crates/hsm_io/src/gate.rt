// Where a lane may be held, before and after its bookings.
ghost use Rattle.std.specs.Prelude.{◌≡◌, ◌++◌, ◌∷◌, [], List, Option, None, Some};
ghost use Rattle.hsm_io.specs.Gates.{GateCall, before, after};

/// Is called around the bookings of a lane: before each of the messages that are booked together, and after each of them.
/// Messages of a connection are counted from 0.
pub trait Gate {
    /// The calls that it got, in order, where told.
    ghost calls: { Self → Option (List GateCall) };

    /// The message was prepared, and is to be booked.
    fn before_book(&mut self, lane: u32, message: u64)
        ensures told { (c : List GateCall) → calls self.old ≡ Some c → calls self.new ≡ Some (c ++ before lane message ∷ []) };

    /// The message was booked, and is to be answered.
    fn after_book(&mut self, lane: u32, message: u64)
        ensures told { (c : List GateCall) → calls self.old ≡ Some c → calls self.new ≡ Some (c ++ after lane message ∷ []) };
}

/// A gate that holds no lane, and tells nothing.
#[derive(Clone, Copy, Debug)]
pub struct OpenGate;

impl Gate for OpenGate {
    ghost calls = { λ gate. None };

    fn before_book(&mut self, _lane: u32, _message: u64) {}

    fn after_book(&mut self, _lane: u32, _message: u64) {}
}
