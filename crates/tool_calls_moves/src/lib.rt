// Sends and receives: a piece begun; or taken, and the next one begun.
#![tactic(auto)]

ghost use Rattle.std.specs.Prelude.{◌≡◌, cond, nat_le};
ghost use Rattle.std.proofs.lemmas.List.Edits.{sets};
ghost use Rattle.ops.specs.Ops.{flat};
ghost use Rattle.tool_scripts.specs.Script.{number_at};
ghost use Rattle.tool_moves.specs.Lines.{asked_by};
ghost use Rattle.tool_calls_moves.specs.Moves.{slot_for, request_for, send_for, receive_for, begun_for, sent_for, received_for, taken_for, world_begun, list_begun, world_next, list_next};

use endpoint_answer::Move;
use endpoint_choice::MoveRequest;
use endpoint_parts::part;
use state::{Refusal, Slot, Transfer, Wakes};
use state_call::{Answered, Listed};
use state_slots::{own_buffer, slot_at, slot_place};
use tool_copies::copied;
use tool_moves::asked::Asked;
use tool_moves::{asked, pieces};
use world::World;

// A piece is begun.
pub fn begin(rt: &impl Print, list: &mut [u32; 640], world: World, line: &[u8]) -> World
    ensures world { result ≡ cond (nat_le (number_at line.now 4) 65536) (world_begun world (asked_by line.now)) world }
    ensures list { list.new ≡ cond (nat_le (number_at line.now 4) 65536) (list_begun world (asked_by line.now) list.old) list.old }
{
    let asked = asked::read(line);
    if !asked.fits() {
        tool_answers::unfit(rt);
        return world;
    }
    let begun = begun(rt, list, world, asked);
    told(rt, begun.answer, asked, begun.wakes);
    world.with_state(begun.state)
}

// A piece is taken, and the next one begun.
pub fn next(rt: &impl Print, list: &mut [u32; 640], world: World, line: &[u8]) -> World
    ensures world { result ≡ cond (nat_le (number_at line.now 4) 65536) (world_next world (asked_by line.now)) world }
    ensures list { list.new ≡ cond (nat_le (number_at line.now 4) 65536) (list_next world (asked_by line.now) list.old) list.old }
{
    let asked = asked::read(line);
    if !asked.fits() {
        tool_answers::unfit(rt);
        return world;
    }
    let result = taken(rt, world, asked);
    let went = world.with_state(result.state);
    if let Ok(Move::More(position)) = result.answer {
        return go_on(rt, list, went, asked.onward(position));
    }
    told(rt, result.answer, asked, result.wakes);
    went
}

// The next piece is begun, which is what `more` says.
fn go_on(rt: &impl Print, list: &mut [u32; 640], world: World, asked: Asked) -> World
    ensures world { result ≡ world_begun world asked }
    ensures list { list.new ≡ list_begun world asked list.old }
{
    let result = begun(rt, list, world, asked);
    if pieces::is_begun(result.answer) {
        tool_answers::more(rt, result.wakes);
    } else {
        told(rt, result.answer, asked, result.wakes);
    }
    world.with_state(result.state)
}

// The answer's line. Only a receive gives bytes.
fn told(rt: &impl Print, answer: Result<Move, Refusal>, asked: Asked, wakes: Wakes) {
    match answer {
        Ok(Move::Begun(_)) => tool_answers::answer(rt, Ok(0), wakes),
        Ok(Move::Busy) => tool_answers::busy(rt),
        Ok(Move::More(_)) => tool_answers::more(rt, wakes),
        Ok(Move::Ended(total)) => {
            let value = pieces::given(asked.endpoint.incoming, total);
            tool_answers::answer(rt, Ok(value), wakes);
        }
        Err(refusal) => tool_answers::refused(rt, refusal),
    }
}

fn begun(rt: &impl Print, list: &mut [u32; 640], world: World, asked: Asked) -> Listed<Move>
    ensures state { result.state ≡ (begun_for world.state world.events asked).state }
    ensures list { list.new ≡ list_begun world asked list.old }
{
    if asked.endpoint.incoming {
        send(rt, list, world, asked)
    } else {
        receive(rt, list, world, asked)
    }
}

fn taken(rt: &impl Print, world: World, asked: Asked) -> Answered<Move>
    ensures answer { result.answer ≡ (taken_for world.state world.events asked).answer }
    ensures state { result.state ≡ (taken_for world.state world.events asked).state }
{
    if asked.endpoint.incoming {
        sent(world, asked)
    } else {
        received(rt, world, asked)
    }
}

fn slot_of(world: World, asked: Asked) -> Slot
    ensures { result ≡ slot_for world.state asked }
{
    slot_at(world.state, slot_place(asked.endpoint))
}

fn request(asked: Asked, slot: Slot) -> MoveRequest
    ensures { result ≡ request_for asked slot }
{
    MoveRequest {
        single: asked.single,
        needs_zlp: asked.flag,
        address: asked.address,
        own_address: own_buffer(slot).address,
        position: asked.position as usize,
    }
}

// A piece of a send is begun; printed are its copy, its records and itself.
#[tactic(auto, unfolding(usbss::specs::Step::step))]
fn send(rt: &impl Print, list: &mut [u32; 640], world: World, asked: Asked) -> Listed<Move>
    ensures state { result.state ≡ (send_for world.state world.events asked (slot_for world.state asked)).state }
    ensures list { list.new ≡ sets list.old 0 (flat (send_for world.state world.events asked (slot_for world.state asked)).ops) }
{
    let slot = slot_of(world, asked);
    let mut bytes = [0u8; 65536];
    tool_patterns::fill(&mut bytes, asked.pattern);
    let mut own = [0u8; 16384];
    let result = usbss::send(
        list,
        world.state,
        world.events,
        asked.endpoint.index,
        request(asked, slot),
        &bytes[..asked.count()],
        &mut own[..pieces::own_size(slot)],
    );
    let begun = slot_of(world.with_state(result.state), asked);
    let count = pieces::handed_over(result.answer, begun);
    let (from, to) = (pieces::place(asked), own_buffer(slot).address);
    copied(rt, from, to, &own, count);
    tool_print::operations(rt, list, result.end);
    piece(rt, result.answer, begun.transfer);
    result
}

// A piece of a receive is begun.
#[tactic(auto, unfolding(usbss::specs::Step::step))]
fn receive(rt: &impl Print, list: &mut [u32; 640], world: World, asked: Asked) -> Listed<Move>
    ensures state { result.state ≡ (receive_for world.state world.events asked (slot_for world.state asked)).state }
    ensures list { list.new ≡ sets list.old 0 (flat (receive_for world.state world.events asked (slot_for world.state asked)).ops) }
{
    let slot = slot_of(world, asked);
    let bytes = [0u8; 65536];
    let own = [0u8; 16384];
    let result = usbss::receive(
        list,
        world.state,
        world.events,
        asked.endpoint.index,
        request(asked, slot),
        &bytes[..asked.count()],
        &own[..pieces::own_size(slot)],
    );
    tool_print::operations(rt, list, result.end);
    let begun = slot_of(world.with_state(result.state), asked);
    piece(rt, result.answer, begun.transfer);
    result
}

// A piece of a send is taken. No byte of it is asked for.
#[tactic(auto, unfolding(usbss::specs::Step::step))]
fn sent(world: World, asked: Asked) -> Answered<Move>
    ensures answer { result.answer ≡ (sent_for world.state world.events asked (slot_for world.state asked)).answer }
    ensures state { result.state ≡ (sent_for world.state world.events asked (slot_for world.state asked)).state }
{
    let slot = slot_of(world, asked);
    let bytes = [0u8; 65536];
    let own = [0u8; 16384];
    usbss::sent(
        world.state,
        world.events,
        asked.endpoint.index,
        request(asked, slot),
        &bytes[..asked.count()],
        &own[..pieces::own_size(slot)],
    )
}

// A piece of a receive is taken; the own buffer holds the pattern, and the copy out of it is printed.
#[tactic(auto, unfolding(usbss::specs::Step::step))]
fn received(rt: &impl Print, world: World, asked: Asked) -> Answered<Move>
    ensures answer { result.answer ≡ (received_for world.state world.events asked (slot_for world.state asked)).answer }
    ensures state { result.state ≡ (received_for world.state world.events asked (slot_for world.state asked)).state }
{
    let slot = slot_of(world, asked);
    let mut bytes = [0u8; 65536];
    let mut own = [0u8; 16384];
    tool_patterns::fill(&mut own, asked.pattern);
    let result = usbss::received(
        world.state,
        world.events,
        asked.endpoint.index,
        request(asked, slot),
        &mut bytes[..asked.count()],
        &own[..pieces::own_size(slot)],
    );
    let count = pieces::brought(result.answer, slot);
    let came = part(&bytes, asked.position as usize, count as usize);
    copied(
        rt,
        own_buffer(slot).address,
        pieces::place(asked),
        came,
        count,
    );
    result
}

// The line of a transfer that was begun.
fn piece(rt: &impl Print, answer: Result<Move, Refusal>, transfer: Transfer) {
    if pieces::is_begun(answer) {
        let _ = println!(rt;
            "piece\t{}\t{}\t{}",
            transfer.address, transfer.length, transfer.zlp as u32
        );
    }
}
