//! The host lanes, the console and the moment of a script.

ghost use Rattle.std.specs.Prelude.{◌≡◌, ◌+◌, ◌<◌, ◌≤◌, ◌^◌, ℕ, List, [], length, slice_get, vec_len, Some, OnOk, OnErr, IfOk};
ghost use Rattle.hsm_io.specs.Outside.{Rose};
ghost use Rattle.hsm_io.specs.Texts.{AppendsFront};
ghost use Rattle.hsm_auth.specs.History.{IsKnown};
ghost use Rattle.hsm_session.specs.Reading.{said_of};
ghost use Rattle.hsm_session.specs.Scripts.{Said, Piece};
ghost use Rattle.hsm_session.specs.declared.lane.ScriptLane.{ScriptLane};
ghost use Rattle.hsm_answers.specs.Kept.{IsCacheOf};
ghost use Rattle.hsm_session.specs.Lanes.{Ends, IsAt, IsLine, StopsLine, TakesLine, run_end, all_held, weight};

use crate::lane::{Buffers, ScriptLane};
use crate::lines::Line;
use crate::script::ScriptEnd;
use hsm_auth::Ledger;
use hsm_frame::Frames;
use hsm_io::{OutFailed, Sink};
use hsm_rows::Module;
use std::alloc::{AllocError, Global};

/// How far a script has come.
#[derive(Drop)]
pub struct Run {
    // The host lanes by their numbers, of which the first is 1.
    lanes: Vec<ScriptLane>,
    // The moment that was set last.
    moment: u64,
    entries: u64,
}

impl Run {
    /// The lanes of a module, of which nothing came yet, at moment 0. All their memory is taken here.
    pub fn open(alloc: Global, module: &Module) -> Result<Run, AllocError>
        ensures at { IfOk result (λ run. IsAt «module».now run []) }
        ensures entries { IfOk result (λ run. run.entries ≡ 0) }
        ensures held { IfOk result (λ run. all_held run.lanes.items ≡ 0) }
    {
        let mut lanes = Vec::with_capacity(alloc, usize::from(module.hosts))?;
        'lanes: for number in 0..u32::from(module.hosts) {
            let frames = Frames::open(alloc, u16::from(module.header) + 2)?;
            match lanes.push(ScriptLane::new(number + 1, frames)) {
                Ok(()) => {}
                Err(_) => return Err(AllocError),
            }
        }
        Ok(Run {
            lanes,
            moment: 0,
            entries: 0,
        })
    }

    /// Does what a line says: books its messages, and prints what they are answered.
    pub fn take_line<S: Sink>(
        &mut self,
        module: &Module,
        ledger: &mut Ledger,
        line: &Line,
        buffers: &mut Buffers,
        out: &mut S,
    ) -> Result<(), OutFailed>
        requires known { IsKnown ledger.old }
        requires at { (earlier : List Said) × IsAt «module».now self.old earlier }
        requires moment { self.old.moment ≤ 2 ^ 40 }
        requires line { IsLine «module».now.hosts (said_of line.now) }
        requires room { self.old.entries + all_held self.old.lanes.items + weight (said_of line.now) < 2 ^ 64 }
        requires cache { IsCacheOf «module».now buffers.old.cache }
        ensures cache { IsCacheOf «module».now buffers.new.cache }
        ensures takes { OnOk result (TakesLine «module».now self.old self.new (said_of line.now) ledger.old ledger.new (S.stands_for out.old) (S.stands_for out.new)) }
        ensures stops { OnErr result (StopsLine «module».now self.old (said_of line.now) ledger.old ledger.new (S.stands_for out.old) (S.stands_for out.new)) }
        ensures moment { OnOk result (self.new.moment ≤ 2 ^ 40) }
        ensures failed { OnErr result (Rose (S.faults out.old) (S.faults out.new)) }
        ensures kept { OnOk result (S.faults out.new ≡ S.faults out.old) }
    {
        match line {
            Line::Skip => Ok(()),
            Line::Moment(moment) => {
                self.moment = *moment;
                Ok(())
            }
            Line::Piece { lane, bytes } => self.take_piece(
                module, ledger, *lane, bytes, buffers, out,
            ),
            Line::Console(text) => {
                buffers.print_console(module, ledger, self.moment, text, out)?;
                self.entries += 1;
                Ok(())
            }
        }
    }

    // Feeds a piece to the lane of this number.
    fn take_piece<S: Sink>(
        &mut self,
        module: &Module,
        ledger: &mut Ledger,
        number: u32,
        piece: &[u8],
        buffers: &mut Buffers,
        out: &mut S,
    ) -> Result<(), OutFailed>
        requires known { IsKnown ledger.old }
        requires at { (earlier : List Said) × IsAt «module».now self.old earlier }
        requires moment { self.old.moment ≤ 2 ^ 40 }
        requires lane { (1 ≤ number) × (number ≤ «module».now.hosts) }
        requires room { self.old.entries + all_held self.old.lanes.items + length piece.now < 2 ^ 64 }
        requires cache { IsCacheOf «module».now buffers.old.cache }
        ensures cache { IsCacheOf «module».now buffers.new.cache }
        ensures takes { OnOk result (TakesLine «module».now self.old self.new (Piece number piece.now) ledger.old ledger.new (S.stands_for out.old) (S.stands_for out.new)) }
        ensures stops { OnErr result (StopsLine «module».now self.old (Piece number piece.now) ledger.old ledger.new (S.stands_for out.old) (S.stands_for out.new)) }
        ensures moment { self.new.moment ≡ self.old.moment }
        ensures failed { OnErr result (Rose (S.faults out.old) (S.faults out.new)) }
        ensures kept { OnOk result (S.faults out.new ≡ S.faults out.old) }
    {
        let lane = &mut self.lanes[number as usize - 1];
        let answered = lane.take_piece(module, ledger, self.moment, piece, buffers, out)?;
        self.entries += answered;
        Ok(())
    }

    /// Prints how the lanes end.
    pub fn end<S: Sink>(&self, buffers: &mut Buffers, out: &mut S) -> Result<ScriptEnd, OutFailed>
        requires numbers { (i : ℕ) (lane : ScriptLane) → slice_get self.now.lanes.items i ≡ Some lane → lane.number ≡ i + 1 }
        requires few { vec_len self.now.lanes < 2 ^ 32 }
        ensures ends { IfOk result (λ over. Ends self.now over (S.stands_for out.old) (S.stands_for out.new)) }
        ensures front { OnErr result (AppendsFront (S.stands_for out.old) (S.stands_for out.new) (run_end self.now)) }
        ensures failed { OnErr result (Rose (S.faults out.old) (S.faults out.new)) }
    {
        let mut cut = 0;
        let mut short = 0;
        'lanes: for lane in &self.lanes {
            lane.print_end(buffers, out)?;
            cut += u32::from(lane.is_cut());
            short += u32::from(lane.is_short());
        }
        buffers.print_last(self.entries, out)?;
        Ok(ScriptEnd {
            entries: self.entries,
            cut,
            short,
        })
    }
}
