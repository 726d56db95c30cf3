ghost use Rattle.std.specs.Prelude.{◌<◌, ◌≤◌, ℕ, length, slice_index};
ghost use Rattle.records.specs.Reading.{AllInside};

use super::tail::Tail;
use coding::Coder;
use outline::{Outline, Point};

// The vertices of a polygon: the outline's points, and the numbers of the vertices among them.
#[derive(Clone, Copy)]
pub(crate) struct Corners<'a> {
    points: &'a [Point],
    list: &'a [u16],
    ghost inside: { AllInside points.now },
    ghost some: { 0 < length list.now },
    ghost few: { length list.now ≤ 256 },
    ghost named: { (k : ℕ) → k < length list.now → slice_index list.now k < length points.now },
}

impl<'a> Corners<'a> {
    ghost use Rattle.std.specs.Prelude.{◌≡◌, ◌-◌, Some, MatchOption, slice_index_or, drop};
    ghost use Rattle.std.specs.Option.{option_map};
    ghost use Rattle.outline.specs.Held.{origin};
    ghost use Rattle.outline.specs.Plain.{plain};
    ghost use Rattle.outline.specs.Polygon.{Polygon};
    ghost use Rattle.records.specs.Bytes.{cols, rows, codes_of, bytes_of};
    ghost use Rattle.records.specs.Corners.{corner_points};
    ghost use Rattle.records.specs.Reading.{Inside};
    ghost use Rattle.records.specs.Writing.{vertices, polygon_bits};

    // The vertices that a list of point numbers names, where it is a polygon of the outline.
    pub(crate) fn of(outline: &'a Outline, list: &'a [u16]) -> Option<Corners<'a>>
        ensures { MatchOption result (Polygon (length (plain outline.now).points) list.now → ⊥) (λ c. Polygon (length (plain outline.now).points) list.now × (corner_points c ≡ vertices (plain outline.now).points list.now)) }
    {
        if !outline.is_polygon(list) {
            return None;
        }
        let points = outline.points();
        Some(Corners { points, list })
    }

    pub(crate) fn start(self) -> Point
        ensures { result ≡ slice_index_or (corner_points self.entry) 0 origin }
    {
        self.points[self.list[0] as usize]
    }

    // How many edges lead from corner to corner.
    pub(crate) fn edges(self) -> u8
        ensures { result ≡ length (corner_points self.entry) - 1 }
    {
        (self.list.len() - 1) as u8
    }

    // The numbers of the vertices after the start.
    fn after_start(self) -> &'a [u16]
        ensures { result.now ≡ drop 1 self.entry.list.now }
    {
        &self.list[1..]
    }

    // The vertex of a number, and how many columns and rows lie from another point to it.
    fn reach(self, from: Point, number: u16) -> (Point, i16, i16)
        requires inside { Inside from }
        requires named { number < length self.points.now }
        ensures vertex { result.0 ≡ slice_index_or self.entry.points.now number origin }
        ensures inside { Inside result.0 }
        ensures right { result.1 ≡ cols from result.0 }
        ensures below { result.2 ≡ rows from result.0 }
    {
        let to = self.points[number as usize];
        let (dx, dy) = from.offset(to);
        (to, dx as i16, dy as i16)
    }

    // The bits of all codes, or none where an edge has no code.
    pub(crate) fn code_bits<C: Coder>(self, coder: &C) -> Option<usize>
        ensures { result ≡ polygon_bits (C.Coder.table coder.now) (corner_points self.entry) }
    {
        let mut bits = 0;
        let mut from = self.start();
        let numbers = self.after_start();
        for number in numbers {
            let (to, dx, dy) = self.reach(from, *number);
            let price = coder.price(dx, dy)?;
            bits += price as usize;
            from = to;
        }
        Some(bits)
    }

    // Writes the codes into bytes that hold them with their padding.
    pub(crate) fn write_codes<C: Coder>(self, coder: &C, body: &mut [u8])
        requires { option_map (λ codes. length (bytes_of codes)) (codes_of (C.Coder.table coder.now) (corner_points self)) ≡ Some (length body.old) }
        ensures { option_map bytes_of (codes_of (C.Coder.table coder.now) (corner_points self.entry)) ≡ Some body.new }
    {
        let mut tail = Tail::new();
        let mut from = self.start();
        let numbers = self.after_start();
        for number in numbers {
            let (to, dx, dy) = self.reach(from, *number);
            let (code, width) = coder.code(dx, dy).unwrap();
            tail.put(body, code, width);
            from = to;
        }
        tail.finish(body);
    }
}
