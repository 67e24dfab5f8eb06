// Runs the bench cases of document 01 that are not proved, and more, and prints what came. The starred ones, M-102's and ours for
// M-107 and M-111 are proved in specs/; ours for M-103 and M-104 are run.
#![tactic(auto)]

use list::Refused;
use numbers::number;
use page::linkshoar_page;
use planner::{Filled, linkshoar_fill};
use std::io;
use std::io::Write;
use vram::Vram;

// Bytes in capital hex digits, a blank before each, on a line.
fn say_bytes(rt: &impl Print, bytes: &[u8]) -> io::Result<()> {
    for byte in bytes {
        print!(rt; " {byte:02X}")?;
    }
    println!(rt)
}

// What a fill answers.
fn say_filled(rt: &impl Print, filled: Filled) -> io::Result<()> {
    println!(rt;
        "fill {}, bytes {}, cycles {}",
        filled.number, filled.bytes, filled.cycles
    )
}

// What a page of 64 rows answers.
fn say_page(rt: &impl Print, rectangles: &[u8], list: &mut [u8]) -> io::Result<()> {
    let paged = linkshoar_page(64, 0, rectangles, list);
    println!(rt;
        "page {} at {}, bytes {}, cycles {}",
        paged.number, paged.place, paged.bytes, paged.cycles
    )
}

// What `report` says of a list, with the name of the case before it.
fn say_report(rt: &impl Print, name: &str, list: &[u8]) -> io::Result<()> {
    // The text has room: none is refused.
    let mut text: [u8; 4096] = report::repeated(0);
    let bytes = report::report(list, &mut text).unwrap_or(0);
    print!(rt; "{name}: ")?;
    io::writer(rt).write_all(&text[..bytes])
}

// The number that a list is answered with.
fn number_of(ran: Result<Vram, Refused>) -> u32 {
    number(ran.map_err(|refused| refused.refusal))
}

// That of a list on 512 rows.
fn say_run(rt: &impl Print, name: &str, list: &[u8]) -> io::Result<()> {
    let mut memory: [u16; 262144] = report::repeated(0);
    let mut serial = [0u16; 256];
    let ran = list::run(Vram::fresh(), &mut memory, &mut serial, list);
    println!(rt; "{name}: {}", number_of(ran))
}

// Document 01's worked fill, and what `report` says of its list and of one with a bad third field.
fn worked_fill(rt: &impl Print) -> io::Result<()> {
    let mut list = [0u8; 32];
    say_filled(
        rt,
        linkshoar_fill(64, 3, 4, 2, 7, 0x00FF, 0x0011, 0, &mut list),
    )?;
    say_bytes(rt, &list)?;
    say_report(rt, "the worked fill", &list)?;
    list[31] = 0;
    say_report(rt, "its last strobes 0", &list)?;
    say_report(rt, "no bytes", &list[..0])
}

// A word write of row 511, and of row 512, of 512 rows.
fn last_row(rt: &impl Print) -> io::Result<()> {
    let mut list = [0u8; 13];
    say_filled(
        rt,
        linkshoar_fill(512, 511, 512, 511, 512, 0xFFFF, 0x00A5, 0, &mut list),
    )?;
    say_run(rt, "row 511 of 512", &list)?;
    list[3] = 2;
    list[4] = 0;
    say_run(rt, "row 512 of 512", &list)
}

// Reset refreshes after a first field of 13 bytes, in a list of zeros.
fn put_resets(list: &mut [u8]) {
    for tag in list.iter_mut().skip(13).step_by(3) {
        *tag = 5;
    }
}

// One word write and reset refreshes: 4,096 bytes, a byte more, and a byte less.
fn long_lists(rt: &impl Print) -> io::Result<()> {
    let mut list = [0u8; 4097];
    say_filled(
        rt,
        linkshoar_fill(64, 63, 64, 511, 512, 0xFFFF, 0x00A5, 0, &mut list),
    )?;
    put_resets(&mut list);
    say_report(rt, "4096 bytes", &list[..4096])?;
    say_report(rt, "4097 bytes", &list)?;
    say_report(rt, "4095 bytes", &list[..4095])
}

// A mask load and a write through it, with no reset refresh and with one.
fn mask_left_behind(rt: &impl Print) -> io::Result<()> {
    let list = *b"\x04\0\x03\x0F\xF0\x03\x01\0\x0A\0\x03\0\x02\x12\x34\x01\0\xFF\x03\x05\0\0";
    say_report(rt, "a mask left behind", &list[..19])?;
    say_report(rt, "and reset", &list)
}

// A page: the mark 02 over the words of document 01's worked fill, and then that fill; the same with the second rectangle cut short.
fn page_of_two(rt: &impl Print) -> io::Result<()> {
    let rectangles =
        *b"\x08\0\x0C\0\x03\0\x04\0\x02\0\x07\xFF\0\x02\0\x08\0\x0C\0\x03\0\x04\0\x02\0\x07\0\xFF\0\x11";
    let mut list = [0u8; 64];
    say_page(rt, &rectangles, &mut list)?;
    say_report(rt, "a mark and its result", &list)?;
    say_page(rt, &rectangles[..29], &mut list)
}

// What is found from a start row on.
fn say_next(rt: &impl Print, marks: &[u8], start: u32) -> io::Result<()> {
    let next = marks::next(marks, start);
    print!(rt; "from {start}: {}, ", number(next))?;
    match next {
        Ok(Some(row)) => println!(rt; "row {row}"),
        _ => println!(rt; "none"),
    }
}

// A write to row 3, a full transfer of row 9 and a write of 0 to row 63, which is 0: rows 3 and 63 are marked.
fn marked_rows(rt: &impl Print) -> io::Result<()> {
    let mut memory = [0u16; 32768];
    let mut serial = [0u16; 256];
    let mut marks = [0u8; 64];
    let list =
        *b"\x01\0\x0A\0\x03\0\x02\0\x11\x01\0\xFF\x03\x06\0\x04\0\x09\0\0\x01\0\x0A\0\x3F\0\0\0\0\0\0\0\x03";
    let ran = marks::run(Vram::fresh(), &mut memory, &mut serial, &mut marks, &list);
    println!(rt; "marked run: {}", number_of(ran))?;
    for start in [0, 3, 4, 512] {
        say_next(rt, &marks, start)?;
    }
    Ok(())
}

fn main(rt: HostRuntime) -> io::Result<()> {
    worked_fill(&rt)?;
    last_row(&rt)?;
    long_lists(&rt)?;
    mask_left_behind(&rt)?;
    page_of_two(&rt)?;
    marked_rows(&rt)
}
