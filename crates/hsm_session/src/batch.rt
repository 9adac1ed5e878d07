//! Messages of one connection that are prepared one after another, booked by one call of the desk, and answered.

ghost use Rattle.std.specs.Prelude.{◌≡◌, ◌+◌, ◌^◌, ◌<◌, ◌≤◌, ◌∷◌, ◌++◌, List, [], length, drop, map, Some, OnOk, OnErr, false};
ghost use Rattle.arrayvec.specs.ArrayVec.{array_vec_len};
ghost use Rattle.hsm_io.specs.Gates.{GateCall, calls_after, calls_before};
ghost use Rattle.hsm_io.specs.Outside.{Rose};
ghost use Rattle.hsm_session.specs.Batches.{AnswersFront, AreBookedFor, ArePlansOf, CanAnswer, Prepares, StandsBehind, answers_of, counted_all, frames_of, stand_of};
ghost use Rattle.hsm_answers.specs.Kept.{IsCacheOf};
ghost use Rattle.hsm_session.specs.Plans.{plan_ask};
ghost use Rattle.hsm_answers.specs.Messages.{least_for};
ghost use Rattle.hsm_session.specs.Serving.{Sends, SendsFront};

use crate::plans::{Plan, finish_cached, prepare_cached};
use crate::replies::{LinkFailed, gather};
use crate::serving::{Count, Tools};
use arrayvec::ArrayVec;
use hsm_answers::words_authorise;
use hsm_auth::{Ask, Place};
use hsm_desk::{Booked, Desk};
use hsm_frame::laws::has_one_reading;
use hsm_frame::{Frames, Next};
use hsm_io::{Clock, Gate, Link};
use hsm_lmk::KeyCache;
use hsm_rows::Module;
use hsm_text::Reply;
use std::sync::Wait;

/// How many messages of a connection are booked together at most.
pub const BATCH: usize = 16;

// What stands behind the messages that were prepared.
#[derive(Clone, Copy)]
pub(crate) enum Behind {
    // There is no room for more plans.
    More,
    NotYet,
    Short(u64),
}

// How many bytes held are those of the messages that were prepared, and what stands behind them.
#[derive(Clone, Copy)]
struct Taken {
    bytes: usize,
    behind: Behind,
}

// Adds a plan. It is not inlined: a plan is then made in one place, and copied once.
#[inline(never)]
fn add<'m, const N: usize>(plans: &mut ArrayVec<Plan<'m>, N>, plan: Plan<'m>)
    requires { array_vec_len plans.old < N }
    ensures items { plans.new.items ≡ plans.old.items ++ plan.entry ∷ [] }
    ensures len { array_vec_len plans.new ≡ array_vec_len plans.old + 1 }
{
    plans.push(plan);
}

// Prepares the whole messages that the frames begin with, as many as there is room for.
fn prepare_held<'m, const N: usize>(
    module: &Module,
    cache: &mut KeyCache,
    kind: Place,
    frames: &'m Frames,
    plans: &mut ArrayVec<Plan<'m>, N>,
) -> Taken
    requires some { 0 < N }
    requires few { N ≤ 16 }
    requires agrees { IsCacheOf «module».now cache.old }
    requires least { frames.now.least ≡ least_for «module».now kind }
    requires none { plans.old.items ≡ [] }
    ensures agrees { IsCacheOf «module».now cache.new }
    ensures prepared { Prepares «module».now kind cache.old plans.new.items cache.new }
    ensures within { result.bytes ≤ length frames.now.bytes }
    ensures messages { frames.now.bytes ≡ frames_of plans.new.items ++ drop result.bytes frames.now.bytes }
    ensures behind { StandsBehind frames.now.least frames.now.bytes (drop result.bytes frames.now.bytes) result.behind }
{
    let mut at = 0;
    'messages: loop {
        match frames.look(at) {
            Next::Message(message) => {
                if plans.is_full() {
                    return Taken {
                        bytes: at,
                        behind: Behind::More,
                    };
                }
                let plan = prepare_cached(module, cache, kind, message);
                add(plans, plan);
                at += 2 + message.len();
            }
            Next::Short(length) => {
                return Taken {
                    bytes: at,
                    behind: Behind::Short(length),
                };
            }
            Next::NotYet => {
                return Taken {
                    bytes: at,
                    behind: Behind::NotYet,
                };
            }
        }
    }
}

// Puts the asks of plans in their places, in their order.
fn put_asks(plans: &[Plan<'_>], asks: &mut [Ask])
    requires { length asks.old ≡ length plans.now }
    ensures { asks.new ≡ map plan_ask plans.now }
{
    'plans: for (at, plan) in plans.iter().enumerate() {
        asks[at] = plan.ask();
    }
}

// Tells the gate of so many messages from this one on that they are to be booked.
fn call_before<G: Gate>(gate: &mut G, lane: u32, first: u64, count: usize)
    requires { first + count ≤ 2 ^ 63 }
    ensures { (c : List GateCall) → G.calls gate.old ≡ Some c → G.calls gate.new ≡ Some (c ++ calls_before lane first count) }
{
    'messages: for message in first..first + count as u64 {
        gate.before_book(lane, message);
    }
}

// Tells the gate of so many messages from this one on that they were booked.
fn call_after<G: Gate>(gate: &mut G, lane: u32, first: u64, count: usize)
    requires { first + count ≤ 2 ^ 63 }
    ensures { (c : List GateCall) → G.calls gate.old ≡ Some c → G.calls gate.new ≡ Some (c ++ calls_after lane first count) }
{
    'messages: for message in first..first + count as u64 {
        gate.after_book(lane, message);
    }
}

// Counts one more entry for each that was booked.
fn count_all(count: &mut Count, booked: &[Booked])
    requires { count.old.messages + length booked.now ≤ 2 ^ 63 }
    ensures { count.new ≡ counted_all count.old booked.now }
{
    'entries: for entry in booked {
        count.add(entry.place);
    }
}

// Finishes the answers of plans for which these were booked, and gathers them.
fn answer_plans<K: Link>(
    module: &Module,
    cache: &KeyCache,
    plans: &[Plan<'_>],
    booked: &[Booked],
    reply: &mut Reply,
    out: &mut ArrayVec<u8, 65537>,
    link: &mut K,
) -> Result<(), LinkFailed>
    requires plans { ArePlansOf «module».now plans.now }
    requires fit { AreBookedFor plans.now booked.now }
    ensures ok { OnOk result (Sends (K.traffic link.old) (K.traffic link.new) (out.old.items ++ answers_of «module».now plans.now booked.now) out.new.items) }
    ensures front { OnErr result (SendsFront (K.traffic link.old) (K.traffic link.new) (out.old.items ++ answers_of «module».now plans.now booked.now)) }
    ensures kept { OnOk result (K.faults link.new ≡ K.faults link.old) }
    ensures failed { OnErr result (Rose (K.faults link.old) (K.faults link.new) × (K.last_was_read link.new ≡ false)) }
{
    let [plan, more @ ..] = plans else {
        return Ok(());
    };
    let [first, rest @ ..] = booked else {
        unreachable!()
    };
    finish_cached(module, cache, plan, &first.granted, reply);
    gather(reply.bytes(), out, link)?;
    answer_plans(module, cache, more, rest, reply, out, link)
}

// Books and answers the whole messages that the frames begin with, at most N of them, and gathers their replies. The gate is called
// before and after the one call of the desk that books them, so a gate that holds the lane holds up no other one.
fn answer_batch<R: Wait, K: Link, C: Clock, G: Gate, const N: usize>(
    rt: &R,
    module: &Module,
    desk: &Desk,
    kind: Place,
    tools: &mut Tools<C, G>,
    link: &mut K,
    count: &mut Count,
) -> Result<Behind, LinkFailed>
    requires some { 0 < N }
    requires few { N ≤ 16 }
    requires desk { tools.old.pass.desk ≡ desk.now }
    requires can { CanAnswer «module».now kind (stand_of C.last C.to_come G.calls K.traffic K.faults K.last_was_read tools.old link.old count.old) }
    ensures answers { AnswersFront «module».now kind
        (stand_of C.last C.to_come G.calls K.traffic K.faults K.last_was_read tools.old link.old count.old)
        (stand_of C.last C.to_come G.calls K.traffic K.faults K.last_was_read tools.new link.new count.new) result }
{
    has_one_reading();
    words_authorise();
    tools.pass.facts();
    let lane = tools.lane;
    let mut room = ArrayVec::<Plan<'_>, N>::new();
    let taken = prepare_held(module, &mut tools.cache, kind, &tools.frames, &mut room);
    let plans = room.as_slice();
    let mut asks = [Ask::Look; N];
    let asks = &mut asks[..plans.len()];
    put_asks(plans, asks);
    let booked = &mut tools.booked[..plans.len()];
    call_before(&mut tools.gate, lane, count.messages, plans.len());
    desk.book_all(rt, &mut tools.pass, &mut tools.clock, asks, booked);
    call_after(&mut tools.gate, lane, count.messages, plans.len());
    count_all(count, booked);
    answer_plans(
        module,
        &tools.cache,
        plans,
        booked,
        &mut tools.reply,
        &mut tools.out,
        link,
    )?;
    drop(room);
    tools.frames.skip(taken.bytes);
    Ok(taken.behind)
}

// Whether two whole messages are held.
fn has_second(frames: &Frames) -> bool {
    let Next::Message(first) = frames.look(0) else {
        return false;
    };
    match frames.look(2 + first.len()) {
        Next::Message(_) => true,
        _ => false,
    }
}

/// Books and answers the whole messages that the frames begin with, as many as are booked together, and gathers their replies. It
/// says what stands behind them. Room for plans is made for as many as that may be: it takes time to make.
pub(crate) fn answer_front<R: Wait, K: Link, C: Clock, G: Gate>(
    rt: &R,
    module: &Module,
    desk: &Desk,
    kind: Place,
    tools: &mut Tools<C, G>,
    link: &mut K,
    count: &mut Count,
) -> Result<Behind, LinkFailed>
    requires desk { tools.old.pass.desk ≡ desk.now }
    requires can { CanAnswer «module».now kind (stand_of C.last C.to_come G.calls K.traffic K.faults K.last_was_read tools.old link.old count.old) }
    ensures answers { AnswersFront «module».now kind
        (stand_of C.last C.to_come G.calls K.traffic K.faults K.last_was_read tools.old link.old count.old)
        (stand_of C.last C.to_come G.calls K.traffic K.faults K.last_was_read tools.new link.new count.new) result }
{
    if has_second(&tools.frames) {
        answer_batch::<R, K, C, G, BATCH>(rt, module, desk, kind, tools, link, count)
    } else {
        answer_batch::<R, K, C, G, 1>(rt, module, desk, kind, tools, link, count)
    }
}
