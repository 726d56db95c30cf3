// Outlines to write polygons of, and what lent memory holds before a call.
use outline::{Outline, Point, Refusal};

// What a byte of a buffer holds where nothing was written.
pub const BLANK: u8 = 0xA5;

// What a place of a list holds where nothing was read.
pub const NOWHERE: Point = Point {
    col: 7777,
    row: 8888,
};

// The outline from (5, 5) by some directions, in a 32 by 32 frame.
pub(crate) fn traced(directions: &[u8]) -> Result<Outline, Refusal> {
    let mut outline = Outline::new();
    outline.open(32, 32, 5, 5)?;
    for d in directions {
        outline.extend(*d)?;
    }
    Ok(outline)
}

pub(crate) fn corner() -> Result<Outline, Refusal> {
    traced(&[0, 0, 6, 6])
}

// 256 points, to and fro.
pub(crate) fn longest() -> Result<Outline, Refusal> {
    let mut outline = traced(&[0])?;
    for _ in 0..127u8 {
        outline.extend(4)?;
        outline.extend(0)?;
    }
    Ok(outline)
}

// All numbers of up to 256 points.
pub(crate) fn everyone() -> [u16; 256] {
    let mut list = [0u16; 256];
    for (place, k) in list.iter_mut().zip(0u16..) {
        *place = k;
    }
    list
}

pub(crate) fn blank(bytes: &[u8]) -> bool {
    bytes.iter().all(|b| *b == BLANK)
}

pub(crate) fn nowhere(points: &[Point]) -> bool {
    points.iter().all(|p| *p == NOWHERE)
}
