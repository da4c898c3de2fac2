// The sets in an order where parents go first: each used set has a binary digit of its own, by its level and then by its
// number.
ghost use Rattle.std.specs.Prelude.{◌≡◌, ◌<◌, ◌≤◌, length};
ghost use Rattle.rules.specs.State.{set_count};
ghost use Rattle.tables.specs.Layout.{files_at};
ghost use Rattle.tables.specs.Meaning.{set_meant};
ghost use Rattle.tables.specs.Packed.{unpack};
ghost use Rattle.entrycheck.specs.Records.{AllAre};
ghost use Rattle.formed.specs.Files.{PlacesPut, place_digit};
ghost use Rattle.formed.specs.Heads.{UnusedFrom, UsedTo};

use tables::sets::{SetRecord, set_at};

// The digits of the sets, and their parents: 8 is no set, as in the tables.
#[derive(Clone, Copy)]
pub struct SetPlaces {
    pub digits: [u64; 8],
    pub parents: [usize; 8],
}

// The digit of set s, whose record is r.
fn digit_of(r: SetRecord, s: usize) -> u64
    requires { (r.level < 8) × (s < 8) }
    ensures { result ≡ place_digit (set_meant r) s }
{
    if r.used { 1 << (r.level * 8 + s) } else { 0 }
}

// The digits and the parents of the sets: those from set n on are unused.
pub fn put_places(front: &[u8], places: &mut SetPlaces, n: usize)
    requires { (files_at ≤ length front.now) × AllAre set_count places.old.digits 0 × (n ≤ 8) × UnusedFrom (unpack front.now).sets n }
    ensures { PlacesPut (unpack front.now).sets n places.old.parents places.new.digits places.new.parents }
{
    for s in 0..n {
        let r = set_at(front, s);
        places.parents[s] = r.parent;
        places.digits[s] = digit_of(r, s);
    }
}

// The number after that of the last used set.
pub fn used_to(front: &[u8]) -> usize
    requires { files_at ≤ length front.now }
    ensures { UsedTo (unpack front.now).sets result }
{
    for s in (0..8).rev() {
        if set_at(front, s).used {
            return s + 1;
        }
    }
    0
}
