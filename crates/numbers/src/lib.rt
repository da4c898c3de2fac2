// The table of numbers: for each call the refusal of the lowest number that applies on a store whose tables are well formed, if any.
// Numbers of sets and files, offsets and sizes are judged at full width.
#![tactic(auto)]

ghost use Rattle.std.specs.Prelude.{◌≡◌, true, not, ◌&&◌, List, ℕ, ◌+◌, ◌<◌, ◌≤◌, ltb, length};
ghost use Rattle.rules.specs.Calls.{view_of};
ghost use Rattle.rules.specs.Numbers;
ghost use Rattle.rules.specs.Numbers.{lowest, number_of};
ghost use Rattle.rules.specs.Rules.{from, own_need, touched, truncate_need};
ghost use Rattle.rules.specs.State.{is_stored, tree_of};
ghost use Rattle.rules.specs.Storage.{real};
ghost use Rattle.base.specs.Logic;
ghost use Rattle.tables.specs.Calls.{store_of};
ghost use Rattle.tables.specs.Layout.{table_bytes};
ghost use Rattle.tables.specs.Meaning.{entry_meant};
ghost use Rattle.tables.specs.Packed.{unpack};
ghost use Rattle.tables.specs.Terms.{current_conditions, set_term_conditions};
ghost use Rattle.tables.proofs.FormedStore.{FormedStore};
ghost use Rattle.numbers.specs.Refusals.{told};
ghost use Rattle.numbers.specs.Shared.{no_such_place, not_changeable, not_readable, read_only_place, view_in};

use crate::refusal::Refusal;
use dates::{Date, count_fits, date_exists};
use maps::reading;
use tables::entries::{Entry, Page};
use tables::{entries, files, header, sets};

pub mod refusal;

// Is it the number of a used set?
fn is_used(t: &[u8], set: u32) -> bool
    requires { length t.now ≡ table_bytes }
    ensures { result ≡ (ltb set 8 && ((unpack t.now).sets set).used) }
{
    set < 8 && sets::set_at(t, set as usize).used
}

// 2 and 3: "a set number over 7, or a set that must be used is not", "file number over 15".
fn no_such_place(t: &[u8], set: u32, file: u32) -> Result<(), Refusal>
    requires { length t.now ≡ table_bytes }
    ensures { told result ≡ lowest (no_such_place (view_in t.now) set file) }
{
    if !is_used(t, set) {
        return Err(Refusal::NoSet);
    }
    if 16 <= file {
        return Err(Refusal::NoFile);
    }
    Ok(())
}

// 2, 3 and 4: "create, write, truncate, delete in a read-only set" too.
fn read_only_place(t: &[u8], set: u32, file: u32) -> Result<(), Refusal>
    requires { length t.now ≡ table_bytes }
    ensures { told result ≡ lowest (read_only_place (view_in t.now) set file) }
{
    no_such_place(t, set, file)?;
    let r = sets::set_at(t, set as usize);
    if !r.writeable {
        return Err(Refusal::ReadOnly);
    }
    Ok(())
}

// 5 and 6: the file is absent, or marked.
fn not_readable(t: &[u8], f: usize, s: usize) -> Result<(), Refusal>
    requires { (length t.now ≡ table_bytes) × (f < 16) × (s < 8) }
    ensures { told result ≡ lowest (not_readable (view_in t.now) s f) }
{
    let l = files::state_at(t, f, s);
    if files::is_absent(l) {
        return Err(Refusal::Absent);
    }
    if files::is_marked(l) {
        return Err(Refusal::Marked);
    }
    Ok(())
}

// 2 to 6, of a write and of a truncate.
fn not_changeable(t: &[u8], set: u32, file: u32) -> Result<(), Refusal>
    requires { length t.now ≡ table_bytes }
    ensures { told result ≡ lowest (not_changeable (view_in t.now) set file) }
{
    read_only_place(t, set, file)?;
    not_readable(t, file as usize, set as usize)
}

// A page that is not stored in a map counts in its own need.
fn missing(e: Entry) -> u32
    ensures { (result ≡ Logic.digit (not (is_stored (entry_meant e)))) × (result < 2) }
{
    match e {
        Entry::Unmapped => 1,
        Entry::Hole => 1,
        Entry::Stored(b) => 0,
    }
}

// "Own need is the touched pages not stored in this file's map": m pages, the first of them `first`.
fn own_need(t: &[u8], f: usize, s: usize, first: usize, m: usize) -> u32
    requires { (length t.now ≡ table_bytes) × (f < 16) × (s < 8) × (first + m ≤ 64) }
    ensures { result ≡ own_need real s (from first m) ((unpack t.now).files f) }
{
    let mut n: u32 = 0;
    for i in first..first + m {
        n += missing(entries::entry_at(t, f, s, Page::new(i)));
    }
    n
}

// The own need of a write of n bytes from `off` on.
fn write_need(t: &[u8], f: usize, s: usize, off: usize, n: usize) -> u32
    requires { (length t.now ≡ table_bytes) × (f < 16) × (s < 8) × (off + n ≤ 32768) }
    ensures { result ≡ own_need real s (touched off n) ((unpack t.now).files f) }
{
    if n == 0 {
        return 0;
    }
    own_need(t, f, s, off / 512, (off + (n - 1)) / 512 - off / 512 + 1)
}

// "Own need is 1 if t is no multiple of 512 and its page resolves to stored but is not stored in this map, else 0." It is 0
// too where n is not below the size.
fn truncate_need(t: &[u8], f: usize, s: usize, n: usize) -> u32
    requires { (length t.now ≡ table_bytes) × (f < 16) × (s < 8) × (n ≤ 32768) }
    ensures { result ≡ truncate_need real (tree_of (unpack t.now).sets) s n ((unpack t.now).files f) }
{
    if reading::size_of(t, f, s) <= n {
        return 0;
    }
    if n % 512 == 0 {
        return 0;
    }
    let page = Page::new(n / 512);
    let r = reading::resolve_in(t, f, page, s);
    let e = r.entry;
    if !entries::is_stored(e) {
        return 0;
    }
    missing(entries::entry_at(t, f, s, page))
}

// 7: is a write's end over 32,768?
fn end_over(off: u32, n: usize) -> bool
    ensures { result ≡ ltb 32768 (off + n) }
{
    n > 32768 || 32768 < off as usize + n
}

pub fn of_create(t: &[u8], p: &[u8], set: u32, file: u32) -> Result<(), Refusal>
    requires { FormedStore t.now p.now }
    ensures { told result ≡ number_of (view_of real true true (store_of t.now p.now)) (Numbers.create set file) }
{
    read_only_place(t, set, file)?;
    if !files::is_absent(files::state_at(t, file as usize, set as usize)) {
        return Err(Refusal::Exists);
    }
    Ok(())
}

// Of a write, by groups of any size.
pub fn of_write(
    t: &[u8],
    p: &[u8],
    set: u32,
    file: u32,
    offset: u32,
    data: &[u8],
) -> Result<(), Refusal>
    requires { FormedStore t.now p.now }
    ensures { (group : ℕ) → told result ≡ number_of (view_of real true true (store_of t.now p.now)) (Numbers.write group set file offset «data».now) }
{
    not_changeable(t, set, file)?;
    if end_over(offset, data.len()) {
        return Err(Refusal::EndOver);
    }
    let need = write_need(t, file as usize, set as usize, offset as usize, data.len());
    if !header::has_free(t, need) {
        return Err(Refusal::NeedOver);
    }
    Ok(())
}

// Of a read, at any offset and into any buffer, and of the call that tells a size.
pub fn of_look(t: &[u8], p: &[u8], set: u32, file: u32) -> Result<(), Refusal>
    requires { FormedStore t.now p.now }
    ensures { ((off : ℕ) (buffer : List ℕ) → told result ≡ number_of (view_of real true true (store_of t.now p.now)) (Numbers.read set file off buffer)) × (told result ≡ number_of (view_of real true true (store_of t.now p.now)) (Numbers.tell_size set file)) }
{
    no_such_place(t, set, file)?;
    not_readable(t, file as usize, set as usize)
}

pub fn of_truncate(t: &[u8], p: &[u8], set: u32, file: u32, size: u32) -> Result<(), Refusal>
    requires { FormedStore t.now p.now }
    ensures { told result ≡ number_of (view_of real true true (store_of t.now p.now)) (Numbers.truncate set file size) }
{
    not_changeable(t, set, file)?;
    if 32768 < size {
        return Err(Refusal::EndOver);
    }
    let own = truncate_need(t, file as usize, set as usize, size as usize);
    if !header::has_free(t, own) {
        return Err(Refusal::NeedOver);
    }
    Ok(())
}

pub fn of_delete(t: &[u8], p: &[u8], set: u32, file: u32) -> Result<(), Refusal>
    requires { FormedStore t.now p.now }
    ensures { told result ≡ number_of (view_of real true true (store_of t.now p.now)) (Numbers.delete set file) }
{
    read_only_place(t, set, file)?;
    if files::is_absent(files::state_at(t, file as usize, set as usize)) {
        return Err(Refusal::Absent);
    }
    Ok(())
}

pub fn of_make(t: &[u8], p: &[u8], parent: u32, set: u32, writeable: bool) -> Result<(), Refusal>
    requires { FormedStore t.now p.now }
    ensures { told result ≡ number_of (view_of real true true (store_of t.now p.now)) (Numbers.make parent set writeable) }
{
    if !is_used(t, parent) {
        return Err(Refusal::NoSet);
    }
    if 8 <= set {
        return Err(Refusal::NoSet);
    }
    if is_used(t, set) {
        return Err(Refusal::Exists);
    }
    if 5 <= sets::level_of(t, parent as usize) {
        return Err(Refusal::TooDeep);
    }
    Ok(())
}

pub fn of_remove(t: &[u8], p: &[u8], set: u32) -> Result<(), Refusal>
    requires { FormedStore t.now p.now }
    ensures { told result ≡ number_of (view_of real true true (store_of t.now p.now)) (Numbers.remove set) }
{
    if !is_used(t, set) {
        return Err(Refusal::NoSet);
    }
    if sets::first_child_of(t, set as usize) < 8 {
        return Err(Refusal::HasChildren);
    }
    if set == 0 {
        return Err(Refusal::Root);
    }
    Ok(())
}

// Of setting a term: "14 .. and .. 15, both after 2, with 14 first".
pub fn of_set_term(t: &[u8], p: &[u8], set: u32, date: Date, months: u32) -> Result<(), Refusal>
    requires { FormedStore t.now p.now }
    ensures { told result ≡ lowest (set_term_conditions (view_of real true true (store_of t.now p.now)) set date.year date.month date.day months) }
{
    if !is_used(t, set) {
        return Err(Refusal::NoSet);
    }
    if !date_exists(date) {
        return Err(Refusal::NoDate);
    }
    if !count_fits(months) {
        return Err(Refusal::NoMonths);
    }
    Ok(())
}

// Of asking whether a set is current.
pub fn of_current(t: &[u8], p: &[u8], set: u32) -> Result<(), Refusal>
    requires { FormedStore t.now p.now }
    ensures { told result ≡ lowest (current_conditions (view_of real true true (store_of t.now p.now)) set) }
{
    let used = is_used(t, set);
    if !used {
        return Err(Refusal::NoSet);
    }
    Ok(())
}
