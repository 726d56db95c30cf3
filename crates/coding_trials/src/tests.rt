use coding::{Axis, BitRow, Chain, Coder, Flat, Kind, Pair};
use outline::Refusal;

const KINDS: [Kind; 5] = [
    Kind::Flat,
    Kind::Run,
    Kind::Axis,
    Kind::Chain,
    Kind::RunFlat,
];

// Whether price and code agree, and the code with other bits behind it reads back.
fn returns<C: Coder>(coder: &C, dx: i16, dy: i16, behind: u64) -> bool {
    let (bits, n) = match (coder.price(dx, dy), coder.code(dx, dy)) {
        (None, None) => return true,
        (Some(price), Some((bits, n))) if price == n && 1 <= n && n <= 32 => (bits, n),
        _ => return false,
    };
    let word = ((bits as u64) << (64 - n)) | (behind >> n);
    let bytes = word.to_be_bytes();
    coder.read(BitRow::new(&bytes)) == Some((dx, dy, n))
}

// Whether what the last n bits of two bytes read as is written as they are.
fn spells<C: Coder>(coder: &C, bytes: [u8; 2], n: usize) -> bool {
    let row = BitRow::new(&bytes).skip(16 - n.min(16));
    coder.read(row).is_none_or(|(dx, dy, k)| {
        row.number(k)
            .is_some_and(|front| coder.code(dx, dy) == Some((front, k)))
    })
}

fn column<C: Coder>(coder: &C, dx: i16) -> bool {
    (-70..=70).all(|dy| returns(coder, dx, dy, 0) && returns(coder, dx, dy, u64::MAX))
}

// Every displacement with numbers of -70 to 70.
fn square<C: Coder>(coder: &C) -> bool {
    (-70..=70).all(|dx| column(coder, dx))
}

// Every row of n bits, up to 12.
fn rows<C: Coder>(coder: &C, n: usize) -> bool {
    (0..4096u16).all(|bits| spells(coder, bits.to_be_bytes(), n))
}

#[test]
fn every_code_reads_back(rt: HostRuntime) {
    for kind in KINDS {
        assert!(rt; square(&kind));
    }
}

#[test]
fn short_rows(rt: HostRuntime) {
    for n in 0..13usize {
        assert!(rt; KINDS.iter().all(|kind| rows(kind, n)));
    }
}

#[test]
fn far_numbers(rt: HostRuntime) {
    for z in -1024..=1024i16 {
        assert!(rt; returns(&Flat, z, -1023, 0) && returns(&Flat, 1023, z, u64::MAX));
        assert!(rt; (Flat.price(z, 0) == Some(22)) == (-1024 < z && z < 1024));
    }
}

#[test]
fn lowest_has_no_displacement(rt: HostRuntime) {
    let first: [u8; 3] = [0x80, 0x00, 0x00];
    let second: [u8; 3] = [0x00, 0x10, 0x00];
    assert_eq!(rt; Flat.read(BitRow::new(&first)), None);
    assert_eq!(rt; Flat.read(BitRow::new(&second)), None);
}

#[test]
fn pairs(rt: HostRuntime) {
    let twins = Pair {
        first: Chain,
        second: Chain,
    };
    assert_eq!(rt; twins.code(1, 0), Some((0, 4)));
    assert_eq!(rt; twins.read(BitRow::new(&[0x80])), None);
    let nested = Pair {
        first: Pair {
            first: Chain,
            second: Axis,
        },
        second: Flat,
    };
    assert_eq!(rt; nested.price(0, 1), Some(5));
    assert_eq!(rt; nested.price(0, 2), Some(10));
    assert_eq!(rt; nested.price(2, 1), Some(23));
    assert!(rt;
        returns(&nested, 0, 1, 0) && returns(&nested, 0, 2, 0) && returns(&nested, 2, 1, 0)
    );
}

#[test]
fn numbers_of_kinds(rt: HostRuntime) {
    for kind in KINDS {
        assert_eq!(rt; Kind::try_from(u16::from(kind)), Ok(kind));
    }
    assert_eq!(rt; Kind::try_from(0), Err(Refusal::Kind));
    assert_eq!(rt; Kind::try_from(6), Err(Refusal::Kind));
}
