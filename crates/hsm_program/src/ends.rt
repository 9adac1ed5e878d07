//! The lanes after they were served: their passes joined, the status, and the lines.

ghost use Rattle.std.specs.Prelude.{◌≡◌, ◌≤◌, ◌<◌, ◌^◌, [], All, IfSome, IsSome, OnOk, OnErr, length, map, ◌||◌, if◌then◌else◌};
ghost use Rattle.std.specs.List.{list_any};
ghost use Rattle.std.specs.Vec.{vec_capacity};
ghost use Rattle.hsm_desk.specs.Passes.{IsWhole, OnlyKin};
ghost use Rattle.hsm_io.specs.Outside.{Rose};
ghost use Rattle.hsm_io.specs.Texts.{Appends, AppendsFront};
ghost use Rattle.hsm_server.specs.Lanes.{is_fault, lane_view, message_count};
ghost use Rattle.hsm_program.specs.Lanes.{AreJoined, Joins, end_of_lane};
ghost use Rattle.hsm_program.specs.Serving.{is_cut, lane_line, lane_lines, lane_views, status_of_lanes};

use hsm_desk::{Desk, Pass};
use hsm_io::{Clock, Door, Gate, OutFailed, Sink, write_all};
use hsm_server::{Lane, LaneEnd};
use hsm_session::{ConnEnd, Report};
use hsm_text::Reply;
use itoa::Buffer;

/// Joins the passes of the lanes, in their order, and puts what became of each lane behind the others.
pub(crate) fn end_lanes<D: Door + Send + Drop, C: Clock + Send + Drop, G: Gate + Send + Drop>(
    desk: &Desk,
    lanes: Vec<Lane<D, C, G>>,
    ends: &mut Vec<LaneEnd<D>>,
) -> Option<Pass>
    requires of_desk { All (λ lane. lane.tools.pass.desk ≡ desk.now) lanes.items }
    requires none { ends.old.items ≡ [] }
    requires room { length lanes.items ≤ vec_capacity ends.old }
    ensures ends { ends.new.items ≡ map end_of_lane lanes.items }
    ensures joined { IfSome result (λ pass. AreJoined (map (λ lane. lane.tools.pass) lanes.items) pass) }
    ensures numbers { IfSome result (λ pass. IsWhole pass → OnlyKin pass) }
    ensures some { 0 < length lanes.items → IsSome result }
    ensures desk { IfSome result (λ pass. pass.desk ≡ desk.now) }
{
    let mut joined: Option<Pass> = None;
    'lanes: for lane in lanes {
        let (pass, end) = lane.end();
        match ends.push(end) {
            Ok(()) => {}
            Err(_) => unreachable!(),
        }
        joined = Some(join(desk, joined, pass));
    }
    joined
}

// The pass into which the given one is joined, where there is another before it.
fn join(desk: &Desk, joined: Option<Pass>, pass: Pass) -> Pass
    requires mine { IfSome joined (λ mine. mine.desk ≡ desk.now) }
    requires other { pass.desk ≡ desk.now }
    ensures desk { result.desk ≡ desk.now }
    ensures joins { Joins joined pass result }
    ensures numbers { IsWhole result → OnlyKin result }
{
    match joined {
        None => {
            pass.facts();
            pass
        }
        Some(mut mine) => {
            desk.meet(&mut mine, pass);
            mine.facts();
            mine
        }
    }
}

fn is_fault(ended: ConnEnd) -> bool
    ensures { result ≡ is_fault ended }
{
    matches!(ended, ConnEnd::ReadFault | ConnEnd::WriteFault)
}

fn is_cut(ended: ConnEnd) -> bool
    ensures { result ≡ is_cut ended }
{
    matches!(ended, ConnEnd::Cut | ConnEnd::Short(_))
}

fn has_fault(reports: &[Report]) -> bool
    ensures { result ≡ list_any (λ report. is_fault report.ended) reports.now }
{
    reports.iter().any(|report| is_fault(report.ended))
}

fn has_cut(reports: &[Report]) -> bool
    ensures { result ≡ list_any (λ report. is_cut report.ended) reports.now }
{
    reports.iter().any(|report| is_cut(report.ended))
}

fn any_failed<D: Door>(ends: &[LaneEnd<D>]) -> bool
    ensures { result ≡ list_any (λ end. end.door_fault || list_any (λ report. is_fault report.ended) end.reports.items) ends.now }
{
    ends.iter()
        .any(|end| end.door_fault || has_fault(&end.reports))
}

fn any_cut<D: Door>(ends: &[LaneEnd<D>]) -> bool
    ensures { result ≡ list_any (λ end. list_any (λ report. is_cut report.ended) end.reports.items) ends.now }
{
    ends.iter().any(|end| has_cut(&end.reports))
}

fn status_for(failed: bool, cut: bool) -> u8
    ensures { result ≡ (if failed then 7 else if cut then 6 else 0) }
{
    if failed {
        7
    } else if cut {
        6
    } else {
        0
    }
}

/// The exit status after serving: 7 where a read or a write of a connection or a door failed; else 6 where a connection was cut or ended by
/// a short frame; else 0.
pub(crate) fn status_of<D: Door>(ends: &[LaneEnd<D>]) -> u8
    ensures { result ≡ status_of_lanes (lane_views D.doorway D.faults D.broken ends.now) }
{
    let failed = any_failed(ends);
    let cut = any_cut(ends);
    status_for(failed, cut)
}

// How many messages the reports count together.
fn messages_of(reports: &[Report]) -> u64
    requires { message_count reports.now < 2 ^ 64 }
    ensures { result ≡ message_count reports.now }
{
    let mut count = 0;
    'reports: for report in reports {
        count += report.messages;
    }
    count
}

// Writes the line of a lane.
#[tactic(auto, unfolding(crate::specs::Serving::lane_line))]
fn print_lane<D: Door, S: Sink>(
    number: usize,
    end: &LaneEnd<D>,
    out: &mut S,
) -> Result<(), OutFailed>
    requires { message_count end.now.reports.items < 2 ^ 64 }
    ensures ok { OnOk result (Appends (S.stands_for out.old) (S.stands_for out.new) (lane_line number (lane_view D.doorway D.faults D.broken end.now))) }
    ensures err { OnErr result (AppendsFront (S.stands_for out.old) (S.stands_for out.new) (lane_line number (lane_view D.doorway D.faults D.broken end.now))) }
    ensures clean { OnOk result (S.faults out.new ≡ S.faults out.old) }
    ensures cause { OnErr result (Rose (S.faults out.old) (S.faults out.new)) }
{
    let mut digits = Buffer::new();
    let mut line = Reply::new();
    line.put(b"lane ");
    line.put(digits.format(number).as_bytes());
    line.put(b": ");
    line.put(digits.format(end.reports.len()).as_bytes());
    line.put(b" connections, ");
    line.put(digits.format(messages_of(&end.reports)).as_bytes());
    line.put(b" messages\n");
    write_all(out, line.bytes())
}

/// Writes a line for each lane.
pub(crate) fn print_lanes<D: Door, S: Sink>(
    ends: &[LaneEnd<D>],
    out: &mut S,
) -> Result<(), OutFailed>
    requires { All (λ end. message_count end.reports.items < 2 ^ 64) ends.now }
    ensures ok { OnOk result (Appends (S.stands_for out.old) (S.stands_for out.new) (lane_lines 0 (lane_views D.doorway D.faults D.broken ends.now))) }
    ensures err { OnErr result (AppendsFront (S.stands_for out.old) (S.stands_for out.new) (lane_lines 0 (lane_views D.doorway D.faults D.broken ends.now))) }
    ensures cause { OnErr result (Rose (S.faults out.old) (S.faults out.new)) }
{
    'lanes: for number in 0..ends.len() {
        match print_lane(number, &ends[number], out) {
            Ok(()) => {}
            Err(failed) => return Err(failed),
        }
    }
    Ok(())
}
