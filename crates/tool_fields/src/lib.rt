// The names of the registers' fields, for the numbers in the records of register operations.
#![tactic(auto)]

ghost use Rattle.std.specs.Prelude.{◌≡◌, ◌≤◌, length};
ghost use Rattle.tool_rows.specs.Bytes.{room};
ghost use Rattle.tool_fields.specs.FieldNames.{field_name};

// The place of a name is its number. Zero names nothing.
const FIELDS: [&str; 76] = [
    "",
    "all",
    "link_rx_eq_en",
    "link_tx_deemph",
    "link_phy_reset",
    "link_ltssm_mode",
    "link_tout_mode",
    "link_rx_term_en",
    "link_reset",
    "link_u1_allow",
    "link_u2_allow",
    "link_pd_mode",
    "link_go_disabled",
    "link_go_rx_det",
    "link_tx_ux_exit",
    "link_tx_ts_cfg",
    "link_ie_tx_lmp",
    "link_ie_rx_lmp",
    "link_ie_rx_lmp_tout",
    "link_ie_state_chg",
    "link_ie_warm_rst",
    "link_ie_term_pres",
    "link_ie_rx_set_fc",
    "link_if_tx_lmp",
    "link_if_rx_lmp",
    "link_if_rx_lmp_tout",
    "link_if_state_chg",
    "link_if_warm_rst",
    "link_if_term_pres",
    "link_if_rx_set_fc",
    "lpm_en",
    "u1_wkup_tmr",
    "u1_wkup_filter",
    "u2_wkup_filter",
    "u3_wkup_filter",
    "u2_inactive_timer",
    "link_lmp_tx_cap_vld",
    "phy_cfg_data",
    "phy_cfg_addr",
    "phy_cfg_write",
    "force_rst",
    "uie_transfer",
    "udie_setup",
    "udie_status",
    "dma_en",
    "setup_flow",
    "usb_clr_all",
    "dev_addr",
    "uif_transfer",
    "udif_setup",
    "udif_status",
    "uif_rx_ping",
    "uif_itp",
    "uif_fifo_txov",
    "uif_fifo_rxov",
    "ep_tx_en",
    "ep_rx_en",
    "ep0_tx_res",
    "ep0_tx_seq",
    "ep0_tx_len",
    "ep0_tx_erdy",
    "ep0_rx_res",
    "ep0_rx_erdy",
    "chain_auto",
    "erdy_auto",
    "seq_auto",
    "iso_mode",
    "clr",
    "chain_clr",
    "halt",
    "int_flag",
    "erdy_req",
    "chain_if",
    "len",
    "erdy_nump",
    "cycles",
];

// The name of a field.
pub fn field_name(number: u32) -> &'static str
    ensures name { result.now ≡ field_name number }
    ensures has_room { length result.now ≤ room }
{
    tool_rows::name(&FIELDS, number)
}
