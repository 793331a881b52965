// A transfer begun.
#![tactic(auto)]

ghost use Rattle.std.specs.Prelude.{◌≡◌, false};
ghost use Rattle.std.proofs.lemmas.List.Edits.{sets};
ghost use Rattle.ops.specs.Ops.{flat};
ghost use Rattle.tool_arguments.specs.Arguments.{byte_at, flag_at};
ghost use Rattle.transfer_begin.specs.Begin.{begin_call};
ghost use Rattle.tool_calls_begin.specs.Piece.{piece_of};

use tool_arguments::endpoint;
use tool_scripts::{flag, number};
use transfer_piece::Piece;
use world::World;

#[tactic(auto, unfolding(usbss::specs::Step::step))]
pub fn begin(rt: &impl Print, list: &mut [u32; 640], world: World, line: &[u8]) -> World
    ensures world { result ≡ record world { state = (begin_call 640 world.state world.events (byte_at line.now 1) (flag_at line.now 0) (piece_of line.now) false false).state } }
    ensures list { list.new ≡ sets list.old 0 (flat (begin_call 640 world.state world.events (byte_at line.now 1) (flag_at line.now 0) (piece_of line.now) false false).ops) }
{
    let piece = Piece {
        address: number(line, 2),
        length: number(line, 3),
        zlp: flag(line, 4),
    };
    let begun = usbss::begin(list, world.state, world.events, endpoint(line), piece);
    tool_called::numberless(rt, list, world, begun)
}
