// What a line of `move` or `next` asks for.
ghost use Rattle.std.specs.Prelude.{◌≡◌, min as least, nat_le};
ghost use Rattle.tool_moves.specs.Lines.{asked_by, from};

use state::EndpointAddress;
use tool_arguments::endpoint;
use tool_scripts::{flag, number};

// The caller's bytes are an array here, so there are no more than this.
pub const MOST: u32 = 65536;

// `position`: how many bytes the pieces before have moved.
#[derive(Clone, Copy)]
pub struct Asked {
    pub endpoint: EndpointAddress,
    pub single: bool,
    pub address: u32,
    pub length: u32,
    pub flag: bool,
    pub pattern: u32,
    pub position: u32,
}

pub fn read(line: &[u8]) -> Asked
    ensures { result ≡ asked_by line.now }
{
    Asked {
        endpoint: endpoint(line),
        single: flag(line, 2),
        address: number(line, 3),
        length: number(line, 4),
        flag: flag(line, 5),
        pattern: number(line, 6),
        position: number(line, 7),
    }
}

impl Asked {
    // Whether the bytes have room.
    pub fn fits(self) -> bool
        ensures { result ≡ nat_le self.length 65536 }
    {
        self.length <= MOST
    }

    // The same from another position on, which is never beyond the bytes.
    pub fn onward(self, position: usize) -> Asked
        ensures { result ≡ from self position }
    {
        Asked {
            position: position.min(MOST as usize) as u32,
            ..self
        }
    }

    // How many bytes the caller lends.
    pub fn count(self) -> usize
        ensures { result ≡ least self.length 65536 }
    {
        self.length.min(MOST) as usize
    }
}
