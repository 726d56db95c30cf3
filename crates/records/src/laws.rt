ghost use Rattle.std.specs.Prelude.{ℕ};
ghost use Rattle.records.specs.Laws.{OneRecord, RecordsApart, BitsAreCodes, KindsApart, EdgeBitsAreCodes};
ghost use Rattle.records.specs.Reading.{only, all_kinds};

use coding::Coder;

// Of any coder's records a kind and vertices have one, none begins another, and a polygon's bits are the bits of its codes.
pub fn records_are_unique<C: Coder>()
    ensures one { (s : C) (kind : ℕ) → OneRecord (only kind (C.Coder.table s)) }
    ensures apart { (s : C) → RecordsApart (C.Coder.table s) }
    ensures bits { (s : C) → BitsAreCodes (C.Coder.table s) }
    ensures kinds { (s : C) (kind : ℕ) → KindsApart (only kind (C.Coder.table s)) }
    ensures edges { (s : C) → EdgeBitsAreCodes (C.Coder.table s) }
{}

// Of the records of kinds 1 to 5 a kind and vertices have one, and none begins another.
pub fn kinds_are_unique()
    ensures one { OneRecord all_kinds }
    ensures apart { KindsApart all_kinds }
{}
