ghost use Rattle.std.specs.Prelude.{◌≡◌, length};
ghost use Rattle.outline.specs.Plain.{plain, new_plain, opened, extended, retracted, answer, left_by};
ghost use Rattle.std.specs.List.{slice_get};

use super::direction::Direction;
use super::outline::Outline;
use super::point::Point;
use super::points::{Points, ROOM};
use super::refusal::Refusal;

// The longest side of a frame, in pels.
pub const LONGEST_SIDE: u16 = 1024;

impl Outline {
    // One point in a 1 by 1 frame.
    pub fn new() -> Outline
        ensures { plain result ≡ new_plain }
    {
        Outline {
            width: 1,
            height: 1,
            points: Points::new(Point { col: 0, row: 0 }),
        }
    }

    // Starts anew with one point in a frame.
    pub fn open(&mut self, width: u16, height: u16, col: u16, row: u16) -> Result<(), Refusal>
        ensures said { result ≡ answer (opened width height col row) }
        ensures after { plain self.new ≡ left_by (plain self.old) (opened width height col row) }
    {
        if width == 0 || width > LONGEST_SIDE || height == 0 || height > LONGEST_SIDE {
            return Err(Refusal::FrameSize);
        }
        if col >= width || row >= height {
            return Err(Refusal::StartOutside);
        }
        *self = Outline {
            width,
            height,
            points: Points::new(Point { col, row }),
        };
        Ok(())
    }

    // Adds the last point moved by a direction.
    pub fn extend(&mut self, direction: u8) -> Result<(), Refusal>
        ensures said { result ≡ answer (extended (plain self.old) direction) }
        ensures after { plain self.new ≡ left_by (plain self.old) (extended (plain self.old) direction) }
    {
        let direction = Direction::try_from(direction)?;
        if self.points.len() >= ROOM {
            return Err(Refusal::Full);
        }
        let last = self.points.last();
        let next = last
            .moved(direction, self.width, self.height)
            .ok_or(Refusal::LeavesFrame)?;
        self.points.push(next);
        Ok(())
    }

    // Drops the last point, but never the start.
    pub fn retract(&mut self) -> Result<(), Refusal>
        ensures said { result ≡ answer (retracted (plain self.old)) }
        ensures after { plain self.new ≡ left_by (plain self.old) (retracted (plain self.old)) }
    {
        if self.points.len() <= 1 {
            return Err(Refusal::OnlyStart);
        }
        self.points.pop();
        Ok(())
    }

    pub fn width(&self) -> u16
        ensures { result ≡ (plain self.now).width }
    {
        self.width
    }

    pub fn height(&self) -> u16
        ensures { result ≡ (plain self.now).height }
    {
        self.height
    }

    // The number of points.
    pub fn len(&self) -> usize
        ensures { result ≡ length (plain self.now).points }
    {
        self.points.len()
    }

    // The point of a number, if there is one.
    pub fn point(&self, k: usize) -> Option<Point>
        ensures { result ≡ slice_get (plain self.now).points k }
    {
        self.points.get(k)
    }

    pub fn points(&self) -> &[Point]
        ensures { result.now ≡ (plain self.now).points }
    {
        self.points.as_slice()
    }
}
