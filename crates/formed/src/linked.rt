// The rules on a file that concern the files of its number in the sets above: by the masks of the stored and of the
// unmapped pages of the files of its number. Parents go first, so that the pages that resolve to stored in a set are
// known from those of its parent.
ghost use Rattle.std.specs.Prelude.{true, ◌++◌, ◌≡◌, ℕ, ◌<◌, suc, get_or, set};
ghost use Rattle.base.specs.Count.{all};
ghost use Rattle.rules.specs.State.{live};
ghost use Rattle.tables.specs.Packed.{unpack};
ghost use Rattle.formed.specs.Files.{LinkDecided, Numbered, ends_before, file_linked, resolved_mask};

use crate::places::SetPlaces;
use entrycheck::records::PageMasks;

// The file of set s, which is own or virgin: the pages m that resolve to stored in it are kept. "In an own file, no page
// wholly past the size resolves to stored": such pages are those from k on.
fn put_resolved(resolved: &mut [u64; 8], s: usize, k: usize, m: u64) -> bool
    requires { s < 8 }
    ensures { (result ≡ ends_before k m) × (resolved.new ≡ set resolved.old s m) }
{
    resolved[s] = m;
    k >= 64 || m << k == 0
}

// File f of set s, which is own or virgin. "An own or virgin file with an unmapped entry has an own or virgin file of its
// number in the parent set", and the rule on the pages past the size. Of the parent set it is known which pages resolve
// to stored.
fn link_file(
    front: &[u8],
    files: &[u8],
    places: &SetPlaces,
    masks: &PageMasks,
    ends: &[usize; 8],
    resolved: &mut [u64; 8],
    lives: u64,
    f: usize,
    s: usize,
) -> bool
    requires { (s < 8) × Numbered (front.now ++ files.now) f places.now.digits places.now.parents masks.now.stored masks.now.unmapped ends.now lives × (live ((unpack (front.now ++ files.now)).files f s).state ≡ true) × ((n : ℕ) → ((unpack (front.now ++ files.now)).sets s).level ≡ suc n → live ((unpack (front.now ++ files.now)).files f ((unpack (front.now ++ files.now)).sets s).parent).state ≡ true → get_or resolved.old ((unpack (front.now ++ files.now)).sets s).parent 0 ≡ resolved_mask (front.now ++ files.now) f ((unpack (front.now ++ files.now)).sets s).parent) }
    ensures { LinkDecided (front.now ++ files.now) f s resolved.old resolved.new result }
{
    let i = s * 16 + f;
    let u = masks.unmapped[i];
    if u == 0 {
        return put_resolved(resolved, s, ends[s], masks.stored[i]);
    }
    let x = places.parents[s];
    if x >= 8 {
        return false;
    }
    if lives & places.digits[x] == 0 {
        return false;
    }
    let m = masks.stored[i] | u & resolved[x];
    put_resolved(resolved, s, ends[s], m)
}

// Both rules for the files of number f. Where none is own or virgin, there is nothing to look at.
pub fn files_linked(
    front: &[u8],
    files: &[u8],
    places: &SetPlaces,
    masks: &PageMasks,
    ends: &[usize; 8],
    lives: u64,
    f: usize,
) -> bool
    requires { Numbered (front.now ++ files.now) f places.now.digits places.now.parents masks.now.stored masks.now.unmapped ends.now lives }
    ensures { result ≡ all 8 (file_linked (front.now ++ files.now) f) }
{
    if lives == 0 {
        return true;
    }
    let mut resolved = [0; 8];
    let mut left = lives;
    while left != 0 {
        let s = masks::lowest(left) % 8;
        if !link_file(
            front,
            files,
            places,
            masks,
            ends,
            &mut resolved,
            lives,
            f,
            s,
        ) {
            return false;
        }
        left = left & (left - 1);
    }
    true
}
