// The owners of blocks: for each block of a window of 256, the place of the entry that names it. The window is moved when a
// block outside it is asked for, so that all entries are looked at 16 times at most.
ghost use Rattle.std.specs.Prelude.{◌≡◌, ◌*◌, ◌+◌, ◌-◌, ◌<◌, ◌≤◌, get_or, length};
ghost use Rattle.tables.specs.Layout.{read_entry};
ghost use Rattle.tables.specs.Views.{PackedTables};
ghost use Rattle.compacting.specs.Exchange.{StoredHeld};
ghost use Rattle.compacting.specs.Owners.{Become, in_window, noted, noted_entry, noted_from, owners_at, window_at};

use crate::places;

// The owners of the blocks from block `first` on.
#[derive(Drop)]
pub struct Owners {
    first: usize,
    places: [u16; 256],
}

impl Owners {
    // No block is in the window, which begins behind the last one.
    pub fn none() -> Owners
        ensures { (result.first ≡ 4096) × (length result.places ≡ 256) }
    {
        Owners {
            first: 4096,
            places: [0; 256],
        }
    }

    // Is block b in the window?
    fn holds(&self, b: usize) -> bool
        ensures { result ≡ in_window self.now.first b }
    {
        self.first <= b && b - self.first < 256
    }

    // Place o is noted as that of the owner of block b, where b is in the window.
    pub fn note(&mut self, b: usize, o: usize)
        requires { o < 8192 }
        ensures { Become self.old self.new (noted self.old.places self.old.first b o) }
    {
        if !self.holds(b) {
            return;
        }
        let i = b - self.first;
        self.places[i] = o as u16;
    }

    // The same for the word x of an entry at place o. That of a stored one is 32,768 and its block, so that one test tells
    // both whether it is stored and whether its block is in the window.
    fn note_word(&mut self, x: usize, o: usize)
        requires { (o < 8192) × (x < 49152) × (self.old.first ≤ 4096) }
        ensures { Become self.old self.new (noted_entry self.old.places self.old.first (read_entry x) o) }
    {
        let d = x + 32768 - self.first;
        if d / 256 != 256 {
            return;
        }
        let i = d % 256;
        self.places[i] = o as u16;
    }

    // The same for the four entries from page 4 * g of file record r on.
    fn note_four(&mut self, t: &[u8], r: usize, g: usize)
        requires { PackedTables t.now × (r < 128) × (g < 16) × (self.old.first ≤ 4096) }
        ensures { Become self.old self.new (noted_from t.now self.old.places self.old.first (r * 64 + g * 4) 4) }
    {
        for q in 0..4 {
            self.note_word(places::word_of(t, r, g * 4 + q), r * 64 + g * 4 + q);
        }
    }

    // The same, where four entries of which none is stored are passed over.
    fn note_group(&mut self, t: &[u8], r: usize, g: usize)
        requires { PackedTables t.now × (r < 128) × (g < 16) × (self.old.first ≤ 4096) }
        ensures { Become self.old self.new (noted_from t.now self.old.places self.old.first (r * 64 + g * 4) 4) }
    {
        if places::four_stored(t, r, g) == 0 {
            return;
        }
        self.note_four(t, r, g);
    }

    // The same for the 64 entries of file record r.
    fn note_map(&mut self, t: &[u8], r: usize)
        requires { PackedTables t.now × (r < 128) × (self.old.first ≤ 4096) }
        ensures { Become self.old self.new (noted_from t.now self.old.places self.old.first (r * 64) 64) }
    {
        for g in 0..16 {
            self.note_group(t, r, g);
        }
    }

    // The same, where a file that can have no stored entry is passed over.
    fn note_record(&mut self, t: &[u8], r: usize)
        requires { PackedTables t.now × StoredHeld t.now × (r < 128) × (self.old.first ≤ 4096) }
        ensures { Become self.old self.new (noted_from t.now self.old.places self.old.first (r * 64) 64) }
    {
        if !places::may_hold(t, r) {
            return;
        }
        self.note_map(t, r);
    }

    // The same for all entries from file record `from` on.
    fn fill(&mut self, t: &[u8], from: usize)
        requires { PackedTables t.now × StoredHeld t.now × (from ≤ 128) × (self.old.first ≤ 4096) }
        ensures { Become self.old self.new (noted_from t.now self.old.places self.old.first (from * 64) (8192 - from * 64)) }
    {
        for r in from..128 {
            self.note_record(t, r);
        }
    }

    // The window is moved to block k where k is not in it, with the entries from the file of place n on.
    pub fn window(&mut self, t: &[u8], n: usize, k: usize)
        requires { PackedTables t.now × StoredHeld t.now × (n < 8192) × (k ≤ 4096) }
        ensures { (self.new.first ≡ window_at self.old.first k) × (self.new.places ≡ owners_at t.now self.old.places self.old.first n k) }
    {
        if self.holds(k) {
            return;
        }
        self.first = k;
        self.fill(t, n / 64);
    }

    // The owner of block k, which is in the window.
    pub fn owner_of(&self, k: usize) -> usize
        requires { (self.now.first ≤ k) × (k - self.now.first < 256) }
        ensures { result ≡ get_or self.now.places (k - self.now.first) 0 }
    {
        let i = k - self.first;
        usize::from(self.places[i])
    }
}
