// The scale above and below the rows.
ghost use Rattle.std.specs.Prelude.{◌≡◌, ◌≤◌, ◌<◌, ◌^◌, ◌++◌, OnOk, IfOk};
ghost use Rattle.osc_picture.specs.Scales as spec;

use crate::column::add_upright;
use crate::element::{add, add_decimal, add_path, add_text};
use crate::frame::Frame;
use std::alloc::{AllocError, Global};

/// How far apart the lines of a scale may be, in milliseconds.
const STEPS: [u64; 27] = [
    1, 2, 5, 10, 20, 50, 100, 200, 500, 1_000, 2_000, 5_000, 10_000, 15_000, 30_000, 60_000,
    120_000, 300_000, 600_000, 900_000, 1_800_000, 3_600_000, 7_200_000, 10_800_000, 21_600_000,
    43_200_000, 86_400_000,
];

/// Which lines there may be.
const LINES: [u32; 9] = [0, 1, 2, 3, 4, 5, 6, 7, 8];

/// A line of a scale: its moment, and the same on the wall.
#[derive(Clone, Copy)]
pub(crate) struct Tick {
    pub(crate) at: u64,
    pub(crate) millis: u64,
}

/// Adds the lines of a scale between two heights, and what stands above and below them.
#[tactic(auto, unfolding(crate::specs::Scales::scale_text))]
pub(crate) fn add_scale(
    out: &mut Vec<u8>,
    frame: Frame,
    top: u64,
    bottom: u64,
) -> Result<(), AllocError>
    requires { bottom < 2 ^ 33 }
    ensures { OnOk result (out.new.items ≡ out.old.items ++ spec.scale_text frame top bottom) }
{
    let alloc: Global = *out.allocator();
    let mut lines = Vec::new(alloc);
    add_lines(&mut lines, frame, top, bottom)?;
    add_path(out, b"class=\"s\" ", &lines)?;
    add_labels(out, frame, top, bottom)
}

fn add_lines(out: &mut Vec<u8>, frame: Frame, top: u64, bottom: u64) -> Result<(), AllocError>
    ensures { OnOk result
        (out.new.items ≡ out.old.items ++ spec.lines frame top bottom spec.counts) }
{
    let mut rest: &[u32] = &LINES;
    while let Some((k, others)) = rest.split_first() {
        add_line(out, frame, *k, top, bottom)?;
        rest = others;
    }
    Ok(())
}

fn add_line(
    out: &mut Vec<u8>,
    frame: Frame,
    k: u32,
    top: u64,
    bottom: u64,
) -> Result<(), AllocError>
    ensures { OnOk result (out.new.items ≡ out.old.items ++ spec.line frame top bottom k) }
{
    match tick_of(frame, k) {
        Some(tick) => add_upright(out, frame.x(tick.at), top.saturating_sub(100), bottom),
        None => Ok(()),
    }
}

fn add_labels(out: &mut Vec<u8>, frame: Frame, top: u64, bottom: u64) -> Result<(), AllocError>
    requires { bottom < 2 ^ 33 }
    ensures { OnOk result
        (out.new.items ≡ out.old.items ++ spec.labels frame top bottom spec.counts) }
{
    let mut rest: &[u32] = &LINES;
    while let Some((k, others)) = rest.split_first() {
        add_label(out, frame, *k, top, bottom)?;
        rest = others;
    }
    Ok(())
}

fn add_label(
    out: &mut Vec<u8>,
    frame: Frame,
    k: u32,
    top: u64,
    bottom: u64,
) -> Result<(), AllocError>
    requires { bottom < 2 ^ 33 }
    ensures { OnOk result (out.new.items ≡ out.old.items ++ spec.label frame top bottom k) }
{
    let Some(tick) = tick_of(frame, k) else {
        return Ok(());
    };
    let words = label_words(*out.allocator(), frame, tick)?;
    let x = frame.x(tick.at);
    add_text(out, kind_of(k), x, top.saturating_sub(140), &words)?;
    add_text(out, kind_of(k), x, bottom + 160, &words)
}

/// Every second one is left out where there is little room.
fn kind_of(k: u32) -> &'static [u8]
    ensures { result.now ≡ spec.kind_of k }
{
    if k % 2 == 0 { b"m" } else { b"m h" }
}

/// How far apart the lines are: by the least step of which at most 8 fit, or 6 below a second.
fn step_of(length: u64) -> u64
    ensures value { result ≡ spec.step_of length }
    ensures some { 1 ≤ result }
{
    let mut rest: &[u64] = &STEPS;
    while let Some((step, others)) = rest.split_first() {
        if fits(length, *step) {
            return (*step).max(1);
        }
        rest = others;
    }
    length.max(1)
}

fn fits(length: u64, step: u64) -> bool
    ensures { result ≡ spec.fits length step }
{
    let most = if step < 1000 { 7 } else { 9 };
    u128::from(length) < u128::from(step) * most
}

/// The line after so many others, if it isn't after the end.
fn tick_of(frame: Frame, k: u32) -> Option<Tick>
    ensures { result ≡ spec.tick_of frame k }
{
    let ahead = u128::from(frame.ahead);
    let step = u128::from(step_of(frame.length()));
    let begin = u128::from(frame.first) + ahead;
    let here = (begin + step - 1) / step * step + u128::from(k) * step;
    if u128::from(frame.last) + ahead < here {
        return None;
    }
    Some(Tick {
        at: here.saturating_sub(ahead) as u64,
        millis: (here % 86_400_000) as u64,
    })
}

/// What stands at a line: its time of day, as far as the step goes, or which call it is.
fn label_words(alloc: Global, frame: Frame, tick: Tick) -> Result<Vec<u8>, AllocError>
    ensures { IfOk result (λ words. words.items ≡ spec.label_words frame tick) }
{
    let mut words = Vec::new(alloc);
    if frame.by_order {
        add_decimal(&mut words, tick.at.saturating_add(1))?;
        return Ok(words);
    }
    add(
        &mut words,
        &clock_words(tick.millis)[..size_of(step_of(frame.length()))],
    )?;
    Ok(words)
}

/// How many characters of a time of day a step needs.
fn size_of(step: u64) -> usize
    ensures value { result ≡ spec.size_of step }
    ensures small { result ≤ 12 }
{
    if step % 60_000 == 0 {
        5
    } else if step % 1_000 == 0 {
        8
    } else if step % 100 == 0 {
        10
    } else if step % 10 == 0 {
        11
    } else {
        12
    }
}

/// A time of day, as `20:00:10.000`.
fn clock_words(millis: u64) -> [u8; 12]
    ensures { result ≡ spec.clock_words millis }
{
    [
        digit(millis / 36_000_000),
        digit(millis / 3_600_000),
        b':',
        digit(millis / 600_000 % 6),
        digit(millis / 60_000),
        b':',
        digit(millis / 10_000 % 6),
        digit(millis / 1_000),
        b'.',
        digit(millis / 100),
        digit(millis / 10),
        digit(millis),
    ]
}

pub(crate) fn digit(number: u64) -> u8
    ensures { result ≡ spec.digit number }
{
    b'0' + (number % 10) as u8
}
