ghost use Rattle.std.specs.Prelude.{◌≡◌, ◌-◌, take, drop, MatchResult};
ghost use Rattle.records.specs.declared.fault.HeadFault.TheVariants.{Short};
ghost use Rattle.records.specs.Reading.{Whole, word_at, start_at, edges_at};

use super::fault::HeadFault;
use outline::Point;

// The head of a record taken apart, and the bytes of its codes.
#[derive(Clone, Copy)]
pub(crate) struct Head<'a> {
    pub(crate) kind: u16,
    pub(crate) start: Point,
    pub(crate) edges: u8,
    pub(crate) codes: &'a [u8],
}

pub(crate) fn read_head(bytes: &[u8]) -> Result<Head<'_>, HeadFault>
    ensures { MatchResult result (λ h. Whole bytes.now × (h.kind ≡ word_at bytes.now 2) × (h.start ≡ start_at bytes.now) × (h.edges ≡ edges_at bytes.now) × (h.codes.now ≡ take (word_at bytes.now 0 - 7) (drop 9 bytes.now))) (λ e. (e ≡ Short) × (Whole bytes.now → ⊥)) }
{
    let [l0, l1, k0, k1, c0, c1, r0, r1, edges, rest @ ..] = bytes else {
        return Err(HeadFault::Short);
    };
    let length = u16::from_le_bytes([*l0, *l1]) as usize;
    if length < 7 || rest.len() < length - 7 {
        return Err(HeadFault::Short);
    }
    let col = u16::from_le_bytes([*c0, *c1]);
    let row = u16::from_le_bytes([*r0, *r1]);
    Ok(Head {
        kind: u16::from_le_bytes([*k0, *k1]),
        start: Point { col, row },
        edges: *edges,
        codes: &rest[0..length - 7],
    })
}
