// The line that says which reading is awaited.
#![tactic(auto)]

ghost use Rattle.std.specs.Prelude.{◌≡◌, ◌≤◌, length};
ghost use Rattle.tool_awaits.specs.Awaits.{longest, awaited_name, awaits_text};

use state::Awaiting;
use tool_print::Line;

pub fn awaits(rt: &impl Print, next: Option<Awaiting>) {
    awaits_line(next).print(rt);
}

fn awaits_line(next: Option<Awaiting>) -> Line<30>
    ensures { result ≡ awaits_text next }
{
    let mut line = Line::new();
    line.text(b"awaits\t");
    line.text(name(next).as_bytes());
    line.end();
    line
}

// The link's status is one reading, at whichever place it is asked.
fn name(next: Option<Awaiting>) -> &'static str
    ensures name { result.now ≡ awaited_name next }
    ensures has_room { length result.now ≤ longest }
{
    match next {
        None => "nothing",
        Some(Awaiting::LinkFlags) => "link_flags",
        Some(Awaiting::LinkStatus | Awaiting::TermPresStatus | Awaiting::WarmResetStatus) => {
            "link_status"
        }
        Some(Awaiting::PortCapability) => "port_capability",
        Some(Awaiting::MessageWord) => "message_word",
        Some(Awaiting::TransferStatus) => "transfer_status",
        Some(Awaiting::SetupBytes) => "setup_bytes",
        Some(Awaiting::Ep0Length) => "ep0_length",
        Some(Awaiting::Ep0Sequence) => "ep0_sequence",
        Some(Awaiting::ChainPackets) => "chain_packets",
        Some(Awaiting::LastLength) => "last_length",
    }
}
