//! The text of a picture.
ghost use Rattle.std.specs.Prelude.{◌≡◌, ◌++◌, ◌<◌, ◌^◌, OnOk, OnErr, IfOk};
ghost use Rattle.osc_picture.specs.Pictures as spec;

use crate::bundle::add_bundles;
use crate::element::{add, add_decimal, add_rect, add_text};
use crate::frame::Frame;
use crate::heading::{add_heading, top_of};
use crate::layout::{Layout, all_shelves, layout_of};
use crate::legend::add_legend;
use crate::picture::Picture;
use crate::scale::add_scale;
use crate::strip::{add_heads, add_lives, add_strips};
use crate::style::{style_front, style_rest, svg_front};
use crate::thinning::frame_of;
use std::alloc::{AllocError, Global};

/// Adds the picture as SVG. An `Err` means out of memory.
pub fn add_svg(text: &mut Vec<u8>, picture: &Picture) -> Result<(), AllocError>
    ensures ok { OnOk result (text.new.items ≡ text.old.items ++ spec.svg_text picture.now) }
    ensures err { OnErr result (text.new.items ≡ text.old.items) }
{
    let svg = svg_of(*text.allocator(), picture)?;
    text.extend_from_slice(&svg)
}

#[tactic(auto, unfolding(crate::specs::Pictures::text_of))]
fn svg_of(alloc: Global, picture: &Picture) -> Result<Vec<u8>, AllocError>
    ensures { IfOk result (λ text. text.items ≡ spec.svg_text picture.now) }
{
    let frame = frame_of(picture);
    let layout = layout_of(alloc, top_of(frame, picture), picture)?;
    let bottom = u64::from(layout.end()).saturating_sub(50);
    let mut out = Vec::new(alloc);
    add_front(&mut out, bottom + 910)?;
    add_ground(&mut out, frame, &layout, bottom, picture)?;
    add_rows(&mut out, frame, &layout, picture)?;
    add_heading(&mut out, frame, picture)?;
    add_legend(&mut out, bottom + 480)?;
    add(&mut out, b"</svg>\n")?;
    Ok(out)
}

/// Adds what stands before all elements of a picture that is so high.
#[tactic(auto, unfolding(crate::specs::Pictures::front_text))]
fn add_front(out: &mut Vec<u8>, height: u64) -> Result<(), AllocError>
    ensures { OnOk result (out.new.items ≡ out.old.items ++ spec.front_text height) }
{
    add_opening(out, height)?;
    add_style(out, height)?;
    add_rect(out, b"p", 0, 0, 8000, height)
}

#[tactic(auto, unfolding(crate::specs::Pictures::opening_text))]
fn add_opening(out: &mut Vec<u8>, height: u64) -> Result<(), AllocError>
    ensures { OnOk result (out.new.items ≡ out.old.items ++ spec.opening_text height) }
{
    add(out, svg_front())?;
    add_decimal(out, height)?;
    add(out, b"\" width=\"100%\">\n")
}

#[tactic(auto, unfolding(crate::specs::Pictures::style_text))]
fn add_style(out: &mut Vec<u8>, height: u64) -> Result<(), AllocError>
    ensures { OnOk result (out.new.items ≡ out.old.items ++ spec.style_text height) }
{
    add(out, b"<style>")?;
    add(out, style_front())?;
    add_decimal(out, height)?;
    add(out, style_rest())?;
    add(out, b"</style>\n")
}

/// Adds what stands after the rows: when methods were there, and the scale.
#[tactic(auto, unfolding(crate::specs::Pictures::ground_text))]
fn add_ground(
    out: &mut Vec<u8>,
    frame: Frame,
    layout: &Layout,
    bottom: u64,
    picture: &Picture,
) -> Result<(), AllocError>
    requires { bottom < 2 ^ 33 }
    ensures { OnOk result (out.new.items
        ≡ out.old.items ++ spec.ground_text frame layout.now bottom picture.now) }
{
    add_lives(out, frame, layout.upper(), &picture.rows)?;
    add_scale(out, frame, u64::from(layout.top()), bottom)
}

/// Adds the names above rows, the lines of bundles, and the rows.
#[tactic(auto, unfolding(crate::specs::Pictures::rows_text))]
fn add_rows(
    out: &mut Vec<u8>,
    frame: Frame,
    layout: &Layout,
    picture: &Picture,
) -> Result<(), AllocError>
    ensures { OnOk result (out.new.items
        ≡ out.old.items ++ spec.rows_text frame layout.now picture.now) }
{
    add_heads(out, layout.upper(), &picture.rows)?;
    add_unheard_head(out, layout.middle(), picture.unheard.is_empty())?;
    let shelves = all_shelves(*out.allocator(), layout)?;
    add_bundles(out, frame, &shelves, &picture.bundles)?;
    add_strips(out, frame, layout.upper(), &picture.rows)?;
    add_strips(out, frame, layout.lower(), &picture.unheard)
}

/// Adds what the rows are that have no method, if there are any.
fn add_unheard_head(out: &mut Vec<u8>, y: u32, none: bool) -> Result<(), AllocError>
    ensures { OnOk result (out.new.items ≡ out.old.items ++ spec.unheard_head y none) }
{
    if none {
        return Ok(());
    }
    add_text(out, b"g", 150, u64::from(y) + 180, b"no method")
}
