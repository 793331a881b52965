// Which piece a send or a receive moves next (reference: `send` and `receive` of endpoint.rs).
#![tactic(auto)]

ghost use Rattle.std.specs.Prelude.{◌≡◌, ◌+◌};
ghost use Rattle.endpoint_choice.specs.Choice.{asked_of, place, rest, place_after, reaches, closes, longer, own_unfit, send_direct, send_piece, send_begins, receive_direct, own_room, receive_room, receive_piece, choice, own_transfer};

use base::div_ceil;
use state::Slot;
use state_slots::{own_buffer, slot_size};
use transfer_piece::Piece;

// What a caller of a send or a receive says beside the bytes that it lends: whether one packet or a transfer is asked for,
// whether an empty packet is to close what is sent (a receive doesn't ask that), where its bytes and the lent own buffer
// lie, and how many of its bytes the pieces before have moved.
#[derive(Clone, Copy)]
pub struct MoveRequest {
    pub single: bool,
    pub needs_zlp: bool,
    pub address: u32,
    pub own_address: u32,
    pub position: usize,
}

// What is asked for, with how many bytes the caller has lent.
#[derive(Clone, Copy)]
pub struct Asked {
    pub single: bool,
    pub needs_zlp: bool,
    pub address: u32,
    pub length: usize,
    pub position: usize,
}

// A piece, and whether it is a part of the caller's bytes.
#[derive(Clone, Copy)]
pub struct Choice {
    pub piece: Piece,
    pub direct: bool,
}

impl MoveRequest {
    pub fn of_length(self, length: usize) -> Asked
        ensures { result ≡ asked_of self length }
    {
        Asked {
            single: self.single,
            needs_zlp: self.needs_zlp,
            address: self.address,
            length,
            position: self.position,
        }
    }
}

// Where the caller stands. A position above the length is taken as the length.
pub fn place(asked: Asked) -> usize
    ensures { result ≡ place asked }
{
    asked.position.min(asked.length)
}

// How many bytes are left from there on.
pub fn rest(asked: Asked) -> usize
    ensures { result ≡ rest asked }
{
    asked.length - place(asked)
}

// Where the caller stands after n bytes more.
pub fn place_after(asked: Asked, n: u32) -> usize
    ensures { result ≡ place_after asked n }
{
    place(asked).saturating_add(n as usize).min(asked.length)
}

// Whether the controller reaches the bytes of a buffer from `at` on, `rest` of them. A sum that is too large lies beyond
// RAM all the same.
fn reaches(address: u32, at: usize, rest: usize) -> bool
    ensures { result ≡ reaches (address + at) rest }
{
    let start = (address as usize).saturating_add(at);
    let end = start.saturating_add(rest);
    let inside = (0x200A_0000 <= start) & (end <= 0x2018_0000);
    ((0 < rest) & (start % 4 == 0)) & inside
}

// Whether an empty packet closes what is sent.
pub fn closes(slot: Slot, asked: Asked) -> bool
    ensures { result ≡ closes slot asked }
{
    let m = slot_size(slot) as usize;
    if asked.single {
        return asked.length == 0;
    }
    asked.needs_zlp && 0 < m && asked.length % m == 0
}

// One packet is asked for and its bytes are more.
pub fn is_longer(slot: Slot, asked: Asked) -> bool
    ensures { result ≡ longer slot asked }
{
    asked.single
        && slot
            .config
            .is_some_and(|config| (config.max_packet_size as usize) < asked.length)
}

// What was lent isn't the endpoint's own buffer.
pub fn is_unfit(slot: Slot, address: u32, size: usize) -> bool
    ensures { result ≡ own_unfit slot address size }
{
    let own = own_buffer(slot);
    address != own.address || size != own.size as usize
}

// Whether the transfer goes by way of the own buffer.
pub fn is_own_transfer(slot: Slot) -> bool
    ensures { result ≡ own_transfer slot }
{
    slot.transfer.address == own_buffer(slot).address
}

// The next piece of a send.
pub fn send_choice(slot: Slot, asked: Asked) -> Choice
    ensures { result ≡ choice (send_piece slot asked) (send_direct asked) }
{
    let left = rest(asked);
    if 0 < left && reaches(asked.address, 0, asked.length) {
        return Choice {
            piece: Piece {
                address: asked.address + place(asked) as u32,
                length: left as u32,
                zlp: closes(slot, asked),
            },
            direct: true,
        };
    }
    let own = own_buffer(slot);
    Choice {
        piece: Piece {
            address: own.address,
            length: left.min(own.size as usize) as u32,
            zlp: false,
        },
        direct: false,
    }
}

// Whether there is anything left to send.
pub fn send_begins(slot: Slot, asked: Asked) -> bool
    ensures { result ≡ send_begins slot asked }
{
    0 < rest(asked) || closes(slot, asked) && !reaches(asked.address, 0, asked.length)
}

fn is_receive_direct(slot: Slot, asked: Asked) -> bool
    ensures { result ≡ receive_direct slot asked }
{
    let left = rest(asked);
    let m = slot_size(slot) as usize;
    0 < m && m <= left && reaches(asked.address, place(asked), left)
}

// How many bytes the own buffer is to take. What goes beyond it needn't be counted.
#[tactic(auto, using(crate::specs::ChoiceLaws::own_held))]
fn own_room(size: u32, m: u16, left: usize) -> u32
    ensures { result ≡ own_room size m left }
{
    let held = left.min(size as usize) as u32;
    let whole = div_ceil(held, m as u32) as usize * m as usize;
    (size as usize).min((m as usize).max(whole)) as u32
}

fn receive_room(slot: Slot, asked: Asked, direct: bool) -> u32
    requires { direct ≡ receive_direct slot asked }
    ensures { result ≡ receive_room slot asked }
{
    let m = slot_size(slot);
    if asked.single {
        return m as u32;
    }
    let left = rest(asked);
    if direct {
        return left as u32 / m as u32 * m as u32;
    }
    own_room(own_buffer(slot).size, m, left)
}

// The next piece of a receive.
pub fn receive_choice(slot: Slot, asked: Asked) -> Choice
    ensures { result ≡ choice (receive_piece slot asked) (receive_direct slot asked) }
{
    let direct = is_receive_direct(slot, asked);
    let length = receive_room(slot, asked, direct);
    let address = if direct {
        asked.address + place(asked) as u32
    } else {
        own_buffer(slot).address
    };
    Choice {
        piece: Piece {
            address,
            length,
            zlp: false,
        },
        direct,
    }
}
