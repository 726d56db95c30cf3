// Records of outlines and polygons, byte by byte.

// From (5, 5) by directions 0, 0, 6, 6.
pub const L: [u8; 11] = [9, 0, 4, 0, 5, 0, 5, 0, 4, 0x03, 0x60];

// Its first and last points in kind 2.
pub const ENDS: [u8; 10] = [8, 0, 2, 0, 5, 0, 5, 0, 1, 0xe8];

// Its first, middle and last points in kind 2.
pub const CORNER: [u8; 11] = [9, 0, 2, 0, 5, 0, 5, 0, 2, 0x0b, 0x20];

// From (5, 5) by direction 7.
pub const STEP: [u8; 10] = [8, 0, 4, 0, 5, 0, 5, 0, 1, 0xe0];
