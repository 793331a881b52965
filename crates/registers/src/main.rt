// Prints the page of the registers, their fields and the values that have names, with their numbers.
#![tactic(auto)]

use ops::Kind;
use rows::{DEVICE, ENDPOINTS, LINK, Row};
use std::io;
use tool_fields::field_name;
use tool_names::{register_name, value_name};

mod rows;

// As in the other programs, a write that fails is passed over.
fn main(rt: HostRuntime) {
    let _ = page(&rt);
}

fn page(rt: &impl Print) -> io::Result<()> {
    introduction(rt)?;
    for row in LINK.iter().chain(&DEVICE).chain(&ENDPOINTS) {
        line(rt, *row)?;
    }
    Ok(())
}

fn introduction(rt: &impl Print) -> io::Result<()> {
    println!(rt; "# Registers\n")?;
    println!(rt;
        "A call's list holds records of five numbers: kind, register, index, field and value."
    )?;
    println!(rt;
        "They are carried out in their sequence, before the next call and before the next reading.\n"
    )?;
    accesses(rt)?;
    alone(rt)?;
    println!(rt;
        "\nThe index is the endpoint's number, where it picks one bit of a register that all share too; the place in"
    )?;
    println!(rt;
        "`link_lmp_tx_data`; and else 0. The field `all` is the whole register, whose value is given as it is."
    )?;
    println!(rt; "Under a field stand those of its values that have names.\n")?;
    println!(rt;
        "The numbers are this port's own, and the names are the Rust's. The program `registers` prints this page"
    )?;
    println!(rt; "from the constants of the source.\n")?;
    println!(rt; "| register | field | value | name |")?;
    println!(rt; "|---|---|---|---|")
}

// The records of an access with several fields.
fn accesses(rt: &impl Print) -> io::Result<()> {
    let (write, and, modify) = (Kind::Write as u32, Kind::And as u32, Kind::Modify as u32);
    println!(rt;
        "- {write}, with the records of kind {and} behind it, is one write of a register: each of them has one field's value,"
    )?;
    println!(rt; "  and every field that none of them names is 0.")?;
    println!(rt;
        "- {modify}, with the records of kind {and} behind it, is one modify: the register is read, the fields that they name"
    )?;
    println!(rt;
        "  get their values, every other field keeps what was read, and it is written once."
    )?;
    println!(rt;
        "- {and} stands only behind {write}, {modify} or another {and}, and belongs to the same access."
    )
}

// The records that have none of kind 2 behind them.
fn alone(rt: &impl Print) -> io::Result<()> {
    let (differs, wait, clear) = (
        Kind::ModifyIfDiffers as u32,
        Kind::Wait as u32,
        Kind::ClearBits as u32,
    );
    println!(rt;
        "- {differs} stands alone: the register is read, and where the field has another value it is modified to have this one;"
    )?;
    println!(rt; "  where it has this value already nothing is written.")?;
    println!(rt;
        "- {wait} stands alone: a wait of so many cycles; its register `delay` isn't one of the controller's."
    )?;
    println!(rt;
        "- {clear} stands alone: the register is read, those bits of the field that the value has are made 0, and it is written."
    )
}

fn line(rt: &impl Print, row: Row) -> io::Result<()> {
    match row {
        Row::Register(register) => {
            let number = register as u32;
            println!(rt; "| {number} |  |  | {} |", register_name(number))
        }
        Row::Field(field) => {
            let number = field as u32;
            println!(rt; "|  | {number} |  | {} |", field_name(number))
        }
        Row::Value(value) => {
            let number = value as u32;
            println!(rt; "|  |  | {number} | {} |", value_name(number))
        }
    }
}
