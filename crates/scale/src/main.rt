// Marks a linear scale, a base line and its ticks, through the public calls only: once on a bare bitmap, and once
// through a mask, a quarter turn and a shift on another. Prints both plates side by side, and what was placed where.
#![tactic(auto)]

ghost use Rattle.std.specs.Prelude.{IfOk, OnOk};
ghost use Rattle.scale.specs.Scale.{Spent};

use anyhow::Context;
use bitmap::Bitmap;
use figure::{FigureRefusal, line};
use layer::{mask_over, shift_over, turn_over};
use pile::line_below;
use plate::{Dot, Ink, Plate, Window};
use report::{write_header, write_row};
use std::io::Write;

// The scale's breadth and height; the turned plate has them exchanged.
const BREADTH: u32 = 41;

const HEIGHT: u32 = 9;

const SHOTS: u32 = 300;

// The row of the base line, and its last dot; ticks stand on it.
const BASE: i32 = 8;

const LAST: i32 = 40;

// What the mask shows of the scale: all but four dots at each end.
const SHOWN: Window = Window {
    left: 4,
    top: 0,
    right: 36,
    bottom: 8,
};

// What was struck so far.
#[derive(Clone, Copy, Debug, Default, PartialEq, Eq)]
struct Tally {
    lines: u32,
    dots: u32,
}

// The row of a tick's upper end: every tenth dot has a longer tick, every twentieth the longest.
fn tick_top(x: i32) -> i32 {
    if x % 20 == 0 {
        0
    } else if x % 10 == 0 {
        3
    } else {
        6
    }
}

// One line more: its dots are shots that the plate had.
fn add_line<P: Plate>(
    plate: &mut P,
    tally: &mut Tally,
    from: Dot,
    to: Dot,
) -> Result<(), FigureRefusal>
    ensures { OnOk result (Spent tally.old.dots (P.Plate.shots plate.old) tally.new.dots (P.Plate.shots plate.new)) }
{
    let dots = line(plate, from, to, Ink::Light)?;
    tally.lines = tally.lines.saturating_add(1);
    tally.dots = tally.dots.saturating_add(dots);
    Ok(())
}

// The base line, and a tick at every second dot from the row above it, so that no dot is struck twice.
fn mark_scale<P: Plate>(plate: &mut P) -> Result<Tally, FigureRefusal>
    ensures { IfOk result (λ tally. Spent 0 (P.Plate.shots plate.old) tally.dots (P.Plate.shots plate.new)) }
{
    let mut tally = Tally::default();
    add_line(plate, &mut tally, (0, BASE), (LAST, BASE))?;
    // Tried: `(0..=LAST).step_by(2)`, of which the check does not find that it ends, and twice a number of `0..=LAST / 2`, which may not fit for all that it finds.
    for step in 0..21u32 {
        let x = 2 * step as i32;
        add_line(plate, &mut tally, (x, BASE - 1), (x, tick_top(x)))?;
    }
    Ok(tally)
}

fn print_line(rt: &HostRuntime, out: &[u8], len: usize) -> anyhow::Result<()> {
    let line = out.get(..len).context("a line is longer than its bytes")?;
    rt.stdout().write_all(line)?;
    Ok(())
}

fn print_header(rt: &HostRuntime, width: u32, height: u32, shots: u32) -> anyhow::Result<()> {
    let mut out = [0u8; 40];
    let len = write_header(&mut out, width, height, shots).context("no room for the header")?;
    print_line(rt, &out, len)
}

// A row of the turned plate, beside the row of the bare one as long as that has any.
fn print_row(
    rt: &HostRuntime,
    bare: &mut Bitmap,
    turned: &mut Bitmap,
    y: i32,
) -> anyhow::Result<()> {
    let mut left = [b' '; 43];
    let mut right = [b' '; 10];
    if write_row(bare, y, &mut left).is_ok() {
        left[41] = b' ';
    }
    print_line(rt, &left, 43)?;
    let len = write_row(turned, y, &mut right).context("a row was refused")?;
    print_line(rt, &right, len)
}

fn print_plates(rt: &HostRuntime, bare: &mut Bitmap, turned: &mut Bitmap) -> anyhow::Result<()> {
    print_header(rt, BREADTH, HEIGHT, bare.shots())?;
    print_header(rt, HEIGHT, BREADTH, turned.shots())?;
    for y in 0..=LAST {
        print_row(rt, bare, turned, y)?;
    }
    Ok(())
}

// What a pile did with the scale.
#[derive(Clone, Copy, Debug, PartialEq, Eq)]
struct Placed {
    tally: Tally,
    left: u32,
    base: (Dot, Dot),
}

// Marks the scale through a mask over turn 1 over a shift that brings the turned dots back to the plate.
fn mark_turned(bytes: &mut [u8]) -> anyhow::Result<Placed> {
    let below = shift_over(BASE, 0, Bitmap::new(HEIGHT, BREADTH, SHOTS, bytes));
    let mut pile = mask_over(SHOWN, turn_over(1, below));
    let tally = mark_scale(&mut pile).context("the turned scale was refused")?;
    let left = pile.shots();
    let base = line_below(&mut pile, (0, BASE), (LAST, BASE)).context(
        "the base line lies too far away",
    )?;
    Ok(Placed { tally, left, base })
}

fn print_tallies(rt: &HostRuntime, bare: Tally, shots: u32, placed: Placed) -> anyhow::Result<()> {
    let Placed { tally, left, base } = placed;
    let (lines, dots, struck) = (bare.lines, bare.dots, tally.dots);
    let hidden = dots.saturating_sub(struck);
    let ((x0, y0), (x1, y1)) = base;
    println!(rt; "bare: {lines} lines and {dots} dots struck, {shots} shots left")?;
    println!(rt;
        "through mask 4, 0, 36, 8, turn 1 and shift 8, 0: {struck} dots struck, {left} shots left"
    )?;
    println!(rt;
        "the mask hid {hidden} dots; the base line (0, 8) to (40, 8) lies at ({x0}, {y0}) to ({x1}, {y1})"
    )?;
    Ok(())
}

fn run(rt: &HostRuntime) -> anyhow::Result<()> {
    let mut bytes = [0u8; 54];
    let mut others = [0u8; 82];
    let mut bare = Bitmap::new(BREADTH, HEIGHT, SHOTS, &mut bytes);
    let tally = mark_scale(&mut bare).context("the scale was refused")?;
    let placed = mark_turned(&mut others)?;
    let mut turned = Bitmap::new(HEIGHT, BREADTH, placed.left, &mut others);
    print_plates(rt, &mut bare, &mut turned)?;
    print_tallies(rt, tally, bare.shots(), placed)
}

fn main(rt: HostRuntime) -> anyhow::Result<()> {
    run(&rt)
}
