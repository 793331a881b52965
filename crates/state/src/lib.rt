// The driver's state and what its calls answer (reference: the types of device.rs).
#![tactic(auto)]

pub mod fresh;
pub mod readings;
pub mod refusals;

pub const EP0_SIZE: u32 = 512;

#[derive(Clone, Copy, PartialEq, Eq)]
pub enum EndpointType {
    Control,
    Isochronous,
    Bulk,
    Interrupt,
}

// An endpoint's number and direction.
#[derive(Clone, Copy, PartialEq, Eq)]
pub struct EndpointAddress {
    pub index: u8,
    pub incoming: bool,
}

// Where a buffer lies, and how long it is.
#[derive(Clone, Copy)]
pub struct Buffer {
    pub address: u32,
    pub size: u32,
}

// What an endpoint was allocated with. `buffer` is its own buffer.
#[derive(Clone, Copy)]
pub struct EndpointConfig {
    pub endpoint: EndpointAddress,
    pub ep_type: EndpointType,
    pub max_packet_size: u16,
    pub interval_ms: u8,
    pub max_burst: u8,
    pub buffer: Buffer,
}

#[derive(Clone, Copy, Default, PartialEq, Eq)]
pub enum Phase {
    #[default]
    Idle,
    Busy,
    Done,
}

// `progress`: of IN the bytes handed to the controller, of OUT those received. `zlp`: an empty packet is to follow.
#[derive(Clone, Copy, Default)]
pub struct Transfer {
    pub address: u32,
    pub length: u32,
    pub progress: u32,
    pub zlp: bool,
}

// Transfers of a data slot, and their bytes, modulo 2^32.
#[derive(Clone, Copy, Default)]
pub struct Tally {
    pub begun: u32,
    pub finished: u32,
    pub cut: u32,
    pub bytes: u32,
}

// One direction of an endpoint; its number is 2 * index, and 1 more for IN.
#[derive(Clone, Copy, Default)]
pub struct Slot {
    pub enabled: bool,
    pub stalled: bool,
    pub phase: Phase,
    pub config: Option<EndpointConfig>,
    pub transfer: Transfer,
    pub tally: Tally,
}

// The eight bytes of a SETUP.
pub type Setup = [u8; 8];

// States of the link that the driver tells apart.
#[derive(Clone, Copy, Default, PartialEq, Eq)]
pub enum LinkState {
    #[default]
    U0,
    U1,
    U2,
    U3,
    DISABLED,
    RXDET,
    RECOVERY,
    HOTRST,
    OTHER,
}

// The flags of `link_int_flag`.
#[derive(Clone, Copy, Default)]
pub struct LinkFlags {
    pub link_if_tx_lmp: bool,
    pub link_if_rx_lmp: bool,
    pub link_if_rx_lmp_tout: bool,
    pub link_if_state_chg: bool,
    pub link_if_warm_rst: bool,
    pub link_if_term_pres: bool,
    pub link_if_rx_set_fc: bool,
}

#[derive(Clone, Copy)]
pub struct LinkStatus {
    pub link_state: LinkState,
    pub link_rx_term_pres: bool,
    pub link_rx_warm_rst: bool,
}

// The register `status`.
#[derive(Clone, Copy, Default)]
pub struct TransferStatus {
    pub udif_setup: bool,
    pub udif_status: bool,
    pub uif_transfer: bool,
    pub ep_id: u32,
    pub ep_dir: bool,
    pub uif_itp: bool,
    pub uif_rx_ping: bool,
    pub uif_fifo_txov: bool,
    pub uif_fifo_rxov: bool,
}

// What was read off the registers for an interrupt.
#[derive(Clone, Copy)]
pub enum Reading {
    LinkFlags(LinkFlags),
    LinkStatus(LinkStatus),
    PortCapability(bool),
    MessageWord(u32),
    TransferStatus(TransferStatus),
    SetupBytes(Setup),
    Ep0Length(u32),
    Ep0Sequence(u32),
    ChainPackets(u32),
    LastLength(u32),
}

// A reading that an interrupt awaits. The link status is asked at up to three places.
#[derive(Clone, Copy, PartialEq, Eq)]
pub enum Awaiting {
    LinkFlags = 1,
    LinkStatus = 2,
    PortCapability = 3,
    TermPresStatus = 4,
    MessageWord = 5,
    WarmResetStatus = 6,
    TransferStatus = 7,
    SetupBytes = 8,
    Ep0Length = 9,
    Ep0Sequence = 10,
    ChainPackets = 11,
    LastLength = 12,
}

// What an interrupt awaits next, and what it remembers of earlier readings: the link's flags and state, and of a chain
// report the endpoint and its packets.
#[derive(Clone, Copy, Default)]
pub struct Awaited {
    pub next: Option<Awaiting>,
    pub flags: LinkFlags,
    pub link_state: LinkState,
    pub endpoint: u8,
    pub packets: u8,
}

#[derive(Clone, Copy)]
pub struct State {
    pub endpoints: [Slot; 16],
    // where EP0's 512 bytes begin; 0 before the first start
    pub ep0_address: u32,
    pub powered: bool,
    pub suspended: bool,
    // slots that the end of the next interrupt wakes
    pub wake: u16,
    // a SETUP that nobody has fetched
    pub setup: Option<Setup>,
    // one more with each SETUP and bus reset
    pub control_generation: u32,
    // the EP0 IN packet that is armed is the last of its data stage
    pub in_last: bool,
    // as the last EP0 IN report gave it
    pub tx_seq: u8,
    // the device address that waits for its status stage
    pub address: Option<u8>,
    pub revision: u8,
    // a reset was raised since the link came up
    pub reset_seen: bool,
    // the PHY is set for a link that sleeps
    pub low_power: bool,
    pub awaited: Awaited,
}

// The pending events, one bit each.
#[derive(Clone, Copy)]
pub struct Events {
    pub events: u8,
}

pub const RESET: u8 = 1;

pub const SUSPEND: u8 = 2;

pub const RESUME: u8 = 4;

pub const POWER: u8 = 8;

// Who is to look again after a call: the bus, and the slots of a 16-bit set.
#[derive(Clone, Copy)]
pub struct Wakes {
    pub bus: bool,
    pub slots: u16,
}

// `memory` begins with EP0's 512 bytes; `used` of its `capacity` bytes are taken. Each slot has what is allocated for it.
#[derive(Clone, Copy)]
pub struct Driver {
    pub memory: u32,
    pub capacity: u32,
    pub used: u32,
    pub endpoints: [Option<EndpointConfig>; 16],
}

// What an endpoint is to be, and the address that it is to have, if any will not do.
#[derive(Clone, Copy)]
pub struct EndpointRequest {
    pub endpoint: Option<EndpointAddress>,
    pub ep_type: EndpointType,
    pub max_packet_size: u16,
    pub interval_ms: u8,
    pub max_burst: u8,
    pub max_streams: u16,
    pub mult: u8,
}

// Why a call is refused. `u32::from` gives its number.
#[derive(Clone, Copy, PartialEq, Eq)]
pub enum Refusal {
    MemoryOutsideRam = 1,
    MemoryTooSmall = 2,
    UnfitPacketSize = 3,
    UnfitBurst = 4,
    WrongDirection = 5,
    ControlPacketSize = 6,
    NoDataEndpoint = 7,
    UnfitBuffer = 8,
    TooLong = 9,
    ListTooShort = 10,
    OutOfRange = 11,
    NoFreeEndpoint = 20,
    NoRoom = 21,
    Disabled = 22,
    InHand = 23,
    OutOfTurn = 24,
    NotSuspended = 25,
    Unsound = 26,
}
