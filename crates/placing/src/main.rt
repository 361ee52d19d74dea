// Tests masks, shifts and turns over a strip and over a bitmap against tables of windows and places, and prints a line for each family and plate.
// The tables are written by hand from the rules in docs/LAYERS.md: no number in them comes from the code that is tested.
// Where a row comes out otherwise, its line has fewer right than tried.
#![tactic(auto)]

mod away;
mod bench;
mod claims;
mod deep;
mod joined;
mod masked;
mod shifted;
mod tally;
mod turned;

use bench::{LIT_BITMAP, STRIP, UNLIT_BITMAP};
use claims::{Exchanges, Faces};
use std::io::{self, Print};
use tally::Tally;

fn print_turns(rt: &impl Print) -> io::Result<()> {
    println!(rt; "turns on a strip: {}", Tally::of(&STRIP, &turned::DOTS))?;
    println!(rt;
        "turns on a bitmap: {}",
        Tally::of(&UNLIT_BITMAP, &turned::BITMAP_DOTS)
    )?;
    println!(rt;
        "places of turned dots on a bitmap: {}",
        turned::places_on_a_bitmap()
    )?;
    println!(rt;
        "windows of turns on a strip: {}",
        Tally::of(&turned::LOW_STRIP, &turned::STRIP_WINDOWS)
    )?;
    println!(rt;
        "windows of turns on a bitmap: {}",
        Tally::of(&UNLIT_BITMAP, &turned::BITMAP_WINDOWS)
    )
}

fn print_shifts(rt: &impl Print) -> io::Result<()> {
    println!(rt;
        "shifts on a strip: {}",
        Tally::of(&STRIP, &shifted::STRIP_DOTS)
    )?;
    println!(rt;
        "shifts on a bitmap: {}",
        Tally::of(&UNLIT_BITMAP, &shifted::BITMAP_DOTS)
    )?;
    println!(rt;
        "windows of shifts on a strip: {}",
        shifted::windows_on_strips()
    )?;
    println!(rt;
        "windows of shifts on a bitmap: {}",
        Tally::of(&UNLIT_BITMAP, &shifted::BITMAP_WINDOWS)
    )?;
    println!(rt;
        "dots outside shifts on a strip: {}",
        Tally::of(&STRIP, &shifted::OUTSIDE_STRIP)
    )?;
    println!(rt;
        "dots outside shifts on a bitmap: {}",
        Tally::of(&UNLIT_BITMAP, &shifted::OUTSIDE_BITMAP)
    )
}

fn print_masks(rt: &impl Print) -> io::Result<()> {
    println!(rt;
        "two masks on a strip: {}",
        Tally::of(&STRIP, &masked::SHOWN)
    )?;
    println!(rt;
        "two masks on a bitmap: {}",
        Tally::of(&UNLIT_BITMAP, &masked::SHOWN)
    )?;
    println!(rt;
        "windows of two masks on a strip: {}",
        Tally::of(&STRIP, &masked::STRIP_WINDOWS)
    )?;
    println!(rt;
        "windows of two masks on a bitmap: {}",
        Tally::of(&UNLIT_BITMAP, &masked::BITMAP_WINDOWS)
    )?;
    println!(rt;
        "hidden dots on a strip: {}",
        Tally::of(&STRIP, &masked::HIDDEN)
    )?;
    println!(rt;
        "hidden dots on a bitmap: {}",
        Tally::of(&LIT_BITMAP, &masked::HIDDEN)
    )
}

fn print_deep(rt: &impl Print) -> io::Result<()> {
    println!(rt;
        "mask over shift over turn on a strip: {}",
        Tally::of(&deep::STRIP, &deep::MASK_ON_TOP)
    )?;
    println!(rt;
        "mask over shift over turn on a bitmap: {}",
        Tally::of(&UNLIT_BITMAP, &deep::MASK_ON_TOP)
    )?;
    println!(rt;
        "turn over shift over mask on a strip: {}",
        Tally::of(&deep::STRIP, &deep::TURN_ON_TOP)
    )?;
    println!(rt;
        "turn over shift over mask on a bitmap: {}",
        Tally::of(&UNLIT_BITMAP, &deep::TURN_ON_TOP)
    )
}

fn print_away(rt: &impl Print) -> io::Result<()> {
    println!(rt;
        "two far shifts on a strip: {}",
        Tally::of(&STRIP, &away::SHOWN_ON_STRIP)
    )?;
    println!(rt;
        "two far shifts on a bitmap: {}",
        Tally::of(&UNLIT_BITMAP, &away::SHOWN_ON_BITMAP)
    )?;
    println!(rt;
        "windows of two far shifts on a strip: {}",
        Tally::of(&STRIP, &away::STRIP_WINDOWS)
    )?;
    println!(rt;
        "windows of two far shifts on a bitmap: {}",
        Tally::of(&UNLIT_BITMAP, &away::BITMAP_WINDOWS)
    )?;
    println!(rt;
        "dots lost on the way to a strip: {}",
        Tally::of(&STRIP, &away::LOST_ON_STRIP)
    )?;
    println!(rt;
        "dots lost on the way to a bitmap: {}",
        Tally::of(&LIT_BITMAP, &away::LOST_ON_BITMAP)
    )?;
    println!(rt;
        "places beyond the world on a strip: {}",
        Tally::of(&STRIP, &away::PLACES)
    )?;
    println!(rt;
        "places beyond the world on a bitmap: {}",
        Tally::of(&UNLIT_BITMAP, &away::PLACES)
    )?;
    println!(rt;
        "turned places beyond the world on a bitmap: {}",
        Tally::of(&UNLIT_BITMAP, &away::TURNED_PLACES)
    )
}

fn print_joined(rt: &impl Print) -> io::Result<()> {
    println!(rt;
        "facings of two turns on a strip: {}",
        joined::pairs(&STRIP, &joined::PAIRS, Faces)
    )?;
    println!(rt;
        "exchanged axes of two turns on a bitmap: {}",
        joined::pairs(&UNLIT_BITMAP, &joined::EXCHANGES, Exchanges)
    )?;
    println!(rt;
        "three turns on a strip: {}",
        Tally::of(&STRIP, &joined::TRIPLES)
    )?;
    println!(rt;
        "three turns on a bitmap: {}",
        Tally::of(&UNLIT_BITMAP, &joined::TRIPLES)
    )?;
    println!(rt;
        "lines below shifts over turns on a strip: {}",
        Tally::of(&STRIP, &joined::LINES)
    )
}

fn main(rt: HostRuntime) -> anyhow::Result<()> {
    print_turns(&rt)?;
    print_shifts(&rt)?;
    print_masks(&rt)?;
    print_deep(&rt)?;
    print_away(&rt)?;
    print_joined(&rt)?;
    Ok(())
}
