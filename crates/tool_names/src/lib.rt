// The names of registers and enumerated values, for the numbers in the records of register operations.
#![tactic(auto)]

ghost use Rattle.std.specs.Prelude.{◌≡◌, ◌≤◌, length};
ghost use Rattle.tool_rows.specs.Bytes.{room};
ghost use Rattle.tool_names.specs.Names.{register_name, value_name};

// The place of a name is its number. Zero names nothing.
const REGISTERS: [&str; 42] = [
    "",
    "link_cfg",
    "link_ctrl",
    "link_int_ctrl",
    "link_int_flag",
    "link_lpm_cr",
    "link_u1_wkup_tmr",
    "link_u1_wkup_filter",
    "link_u2_wkup_filter",
    "link_u3_wkup_filter",
    "link_u2_inact_timer",
    "link_lmp_tx_data",
    "link_lmp_port_cap",
    "phy_cfg_cr",
    "phy_cfg_dat",
    "0x5003C018",
    "usbss_ctrl",
    "status",
    "uep_tx_en",
    "uep_rx_en",
    "uep0_tx_dma",
    "uep0_rx_dma",
    "uep0_tx_dma_ofs",
    "uep0_rx_dma_ofs",
    "uep0_tx_ctrl",
    "uep0_rx_ctrl",
    "tx.cfg",
    "tx.cr",
    "tx.st",
    "tx.chain_st",
    "tx.dma",
    "tx.dma_ofs",
    "tx.chain_len",
    "tx.chain_exp_nump",
    "rx.cfg",
    "rx.cr",
    "rx.st",
    "rx.chain_st",
    "rx.dma",
    "rx.dma_ofs",
    "rx.chain_max_nump",
    "delay",
];

const VALUES: [&str; 7] = ["", "ACK", "DPH", "NRDY", "STALL", "P2", "DB3_5"];

// The name of a register.
pub fn register_name(number: u32) -> &'static str
    ensures name { result.now ≡ register_name number }
    ensures has_room { length result.now ≤ room }
{
    tool_rows::name(&REGISTERS, number)
}

// The name of an enumerated value.
pub fn value_name(number: u32) -> &'static str
    ensures name { result.now ≡ value_name number }
    ensures has_room { length result.now ≤ room }
{
    tool_rows::name(&VALUES, number)
}
