// Outlines to try.
use outline::{Outline, Refusal};

// From column 5 of row 5 by some directions, in a 32 by 32 frame.
pub(crate) fn traced(directions: &[u8]) -> Result<Outline, Refusal> {
    let mut outline = Outline::new();
    outline.open(32, 32, 5, 5)?;
    for direction in directions {
        outline.extend(*direction)?;
    }
    Ok(outline)
}

// All outlines of up to 5 steps by their numbers, the shorter ones first. What is left of a number has an octal digit for each step.
pub(crate) fn short(number: u32) -> Result<Outline, Refusal> {
    let mut word = number;
    let mut steps = 0u32;
    for all in [1, 8, 64, 512, 4096] {
        if word >= all {
            word -= all;
            steps = steps.saturating_add(1);
        } else {
            break;
        }
    }
    let mut outline = traced(&[])?;
    for k in (0..steps.min(5)).rev() {
        outline.extend(((word >> (3 * k)) & 7) as u8)?;
    }
    Ok(outline)
}

// The outline of a word of directions, three bits each, the low ones first. Steps that leave the small frame are skipped.
pub(crate) fn penned(word: u32, steps: u32) -> Result<Outline, Refusal> {
    let mut outline = Outline::new();
    outline.open(8, 8, 4, 4)?;
    for k in 0..steps.min(10) {
        let _ = outline.extend(((word >> (3 * k)) & 7) as u8);
    }
    Ok(outline)
}

// Directions by chance, the same in every run. About half of them are the one before.
#[derive(Drop)]
struct Chance {
    noise: u32,
    direction: u8,
}

impl Chance {
    fn new(seed: u32) -> Chance {
        Chance {
            noise: seed.wrapping_mul(0x9E37_79B9),
            direction: 0,
        }
    }

    fn next(&mut self) -> u8 {
        self.noise = self
            .noise
            .wrapping_mul(1_664_525)
            .wrapping_add(1_013_904_223);
        if (self.noise >> 28) & 1 == 0 {
            self.direction = ((self.noise >> 29) & 7) as u8;
        }
        self.direction
    }
}

// An outline of some steps by chance.
pub(crate) fn strolled(seed: u32, steps: u32) -> Result<Outline, Refusal> {
    let mut outline = Outline::new();
    outline.open(64, 64, 32, 32)?;
    let mut chance = Chance::new(seed);
    for _ in 0..steps {
        outline.extend(chance.next())?;
    }
    Ok(outline)
}

// In the small ones an outline crosses itself.
const FRAMES: [(u16, u16); 6] = [(1, 12), (2, 2), (3, 2), (4, 4), (9, 5), (64, 64)];

// Outlines of 6 to 12 steps by chance, one after the other in each frame. Steps that leave the frame are left out.
pub(crate) fn longer(number: u32) -> Result<Outline, Refusal> {
    let seed = number / 6;
    let (width, height) = FRAMES[number as usize % 6];
    let mut outline = Outline::new();
    outline.open(width, height, width / 2, height / 2)?;
    let mut chance = Chance::new(seed);
    for _ in 0..400u32 {
        let direction = chance.next();
        if outline.len() < 7 + seed as usize % 7 {
            let _ = outline.extend(direction);
        }
    }
    Ok(outline)
}
