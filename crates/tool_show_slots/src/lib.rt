// A line for each slot, as docs/REPLAY.md has it.
#![tactic(auto)]

ghost use Rattle.std.specs.Prelude.{◌≡◌};
ghost use Rattle.tool_show_slots.specs.Lines.{phase_number, kind_number, configured, held, slot_text};

use state::{EndpointConfig, EndpointType, Phase, Slot, State};
use tool_print::Line;

pub fn lines(rt: &impl Print, state: State) {
    for (i, slot) in state.endpoints.iter().enumerate() {
        line(i as u32, *slot).print(rt);
    }
}

fn line(i: u32, slot: Slot) -> Line<180>
    ensures { result ≡ slot_text i slot }
{
    let mut line = Line::new();
    line.text(b"slot");
    line.cells(&held(i, slot));
    line.cells(&configured(slot.config));
    line.end();
    line
}

// What a slot has besides what it was allocated with.
fn held(i: u32, slot: Slot) -> [u32; 9]
    ensures { result ≡ held i slot }
{
    [
        i,
        slot.config.is_some() as u32,
        slot.enabled as u32,
        slot.stalled as u32,
        phase_number(slot.phase),
        slot.transfer.address,
        slot.transfer.length,
        slot.transfer.progress,
        slot.transfer.zlp as u32,
    ]
}

fn phase_number(phase: Phase) -> u32
    ensures { result ≡ phase_number phase }
{
    match phase {
        Phase::Idle => 0,
        Phase::Busy => 1,
        Phase::Done => 2,
    }
}

// Zeros where nothing is configured.
fn configured(config: Option<EndpointConfig>) -> [u32; 6]
    ensures { result ≡ configured config }
{
    match config {
        Some(config) => [
            kind_number(config.ep_type),
            config.max_packet_size as u32,
            config.interval_ms as u32,
            config.max_burst as u32,
            config.buffer.address,
            config.buffer.size,
        ],
        None => [0; 6],
    }
}

fn kind_number(kind: EndpointType) -> u32
    ensures { result ≡ kind_number kind }
{
    match kind {
        EndpointType::Control => 0,
        EndpointType::Isochronous => 1,
        EndpointType::Bulk => 2,
        EndpointType::Interrupt => 3,
    }
}
